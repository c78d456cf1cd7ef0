use pt_assembler::Place;
use pt_base::Line;

/// The context manager of an item of a `with` that is entered (Language Reference 8.5): its line, the
/// place from which it is left whatever happens, and where its item stands.
#[derive(Clone, Copy, Debug, PartialEq, Eq)]
pub struct OpenContext {
    pub line: Line,
    pub from: u32,
    pub place: Place,
}
