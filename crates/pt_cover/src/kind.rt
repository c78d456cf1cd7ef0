/// What is reported: lines or names.
#[derive(Clone, Copy, Debug, PartialEq, Eq)]
pub enum ReportKind {
    Lines,
    Names,
}
