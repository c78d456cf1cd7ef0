//! Why a jump is refused.
ghost use Rattle.std.specs.Prelude.{◌≡◌, IfOk, string_bytes};
ghost use Rattle.pt_pdb.specs.Jumps.{jump_failed_text, jump_reason, refused_reason};

use pt_base::Line;
use std::alloc::{AllocError, Global};

/// Why the run can't go on at a line.
#[derive(Clone, Copy, Debug, PartialEq, Eq)]
pub enum JumpRefused {
    /// No statement of the block starts on it.
    NoStatement,
    /// It lies in a block that isn't open.
    IntoBlock,
    /// A `finally` part would be entered or left.
    OutOfFinally,
}

/// Why `jump` fails.
#[derive(Clone, Copy, Debug, PartialEq, Eq)]
pub enum JumpReason {
    NoStatement { line: Line },
    IntoBlock { line: Line },
    OutOfFinally,
    /// Another frame than the bottom one is chosen.
    NotBottom,
    /// The run stopped at another event than a line.
    NotAtLine,
    /// The script has ended.
    Ended,
}

/// Why `jump` fails before the run is asked, if it does.
pub fn jump_reason(has_ended: bool, is_at_line: bool, is_bottom: bool) -> Option<JumpReason>
    ensures { result ≡ jump_reason has_ended is_at_line is_bottom }
{
    if has_ended {
        Some(JumpReason::Ended)
    } else if !is_at_line {
        Some(JumpReason::NotAtLine)
    } else if !is_bottom {
        Some(JumpReason::NotBottom)
    } else {
        None
    }
}

/// Why `jump` to a line fails where the run refuses it.
pub fn refused_reason(refused: JumpRefused, line: Line) -> JumpReason
    ensures { result ≡ refused_reason refused line }
{
    match refused {
        JumpRefused::NoStatement => JumpReason::NoStatement { line },
        JumpRefused::IntoBlock => JumpReason::IntoBlock { line },
        JumpRefused::OutOfFinally => JumpReason::OutOfFinally,
    }
}

pub fn jump_failed_text(alloc: Global, reason: JumpReason) -> Result<String, AllocError>
    ensures { IfOk result (λ t. string_bytes t ≡ jump_failed_text reason) }
{
    match reason {
        JumpReason::NoStatement { line } => format!(in alloc;
            "*** Jump failed: line {} is not a statement of this block\n",
            line.0
        ),
        JumpReason::IntoBlock { line } => format!(in alloc;
            "*** Jump failed: line {} is inside a block that is not open here\n",
            line.0
        ),
        JumpReason::OutOfFinally => String::from_str(
            alloc,
            "*** Jump failed: a finally part can be neither entered nor left\n",
        ),
        JumpReason::NotBottom => {
            String::from_str(alloc, "*** Jump failed: only the bottom frame can jump\n")
        }
        JumpReason::NotAtLine => {
            String::from_str(alloc, "*** Jump failed: not at a line event\n")
        }
        JumpReason::Ended => { String::from_str(alloc, "*** Jump failed: the script has ended\n") }
    }
}
