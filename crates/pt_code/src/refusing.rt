ghost use Rattle.std.specs.Prelude.{◌≡◌, IfOk, Ok};
ghost use Rattle.pt_code.specs.declared.Code.{Code};
ghost use Rattle.pt_code.specs.File.{file, HasFile};
ghost use Rattle.pt_code.specs.Refusals.{refusal, answer, Answers};

use crate::Code;
use crate::parts::Bad;
use crate::reading::code_of;
use std::alloc::Global;
use thiserror::Error;

/// Why bytes are no code file: where the format fails first.
#[derive(Clone, Copy, Debug, PartialEq, Eq, Error)]
pub enum CodeErr {
    /// They don't begin as a code file does.
    #[error("not a code file")]
    Magic,
    #[error("a code file of version {got}")]
    Version { got: u8 },
    /// They end before the file does.
    #[error("the file ends at {at}")]
    Truncated { at: usize },
    /// The field that starts here is none.
    #[error("no field at {at}")]
    Field { at: usize },
    /// The file ends before they do.
    #[error("the code ends at {at}")]
    Trailing { at: usize },
    #[error("out of memory")]
    Memory,
}

/// The code whose file the bytes are.
pub fn read(alloc: Global, bytes: &[u8]) -> Result<Code, CodeErr>
    // What is read has this file.
    ensures found { IfOk result (λ c. (bytes.now ≡ file c) × HasFile c) }
    // A file is refused only where memory runs out.
    ensures only { (c : Code) → HasFile c → bytes.now ≡ file c → Answers result (Ok c) }
    // Which refusal it is, and at which place.
    ensures exact { Answers result (answer bytes.now) }
{
    answer(alloc, bytes)
}

/// No two codes have one file.
pub fn one_code()
    ensures { (c d : Code) → HasFile c → HasFile d → file c ≡ file d → c ≡ d }
{}

#[tactic(auto, unfolding(crate::specs::Refusals::answer))]
fn answer(alloc: Global, bytes: &[u8]) -> Result<Code, CodeErr>
    ensures { Answers result (answer bytes.now) }
{
    match code_of(alloc, bytes) {
        Ok(code) => Ok(code),
        Err(bad) => Err(refusal(bytes, bad)),
    }
}

/// Places count from the front of the bytes.
fn refusal(bytes: &[u8], bad: Bad) -> CodeErr
    ensures { result ≡ refusal bytes.now bad }
{
    match bad {
        Bad::Short => CodeErr::Truncated { at: bytes.len() },
        Bad::Field(left) => CodeErr::Field {
            at: bytes.len().saturating_sub(left),
        },
        Bad::Magic => CodeErr::Magic,
        Bad::Version(got) => CodeErr::Version { got },
        Bad::Trailing(left) => CodeErr::Trailing {
            at: bytes.len().saturating_sub(left),
        },
        Bad::Memory => CodeErr::Memory,
    }
}
