//! What a debugger writes (Library Reference, "pdb"), as far as it needs no run: bytes, since a
//! line of a source is.
#![tactic(auto)]

mod answer;
mod arguments;
mod jumps;
mod position;
mod prompts;

pub use answer::{Answer, BreakAnswer, push_answer, push_break_answer};
pub use arguments::{Names, push_arguments};
pub use jumps::{JumpReason, JumpRefused, jump_reason, refused_reason};
pub use position::{Stop, push_frames, push_position, push_stop};
pub use prompts::{push_prompt, shown_line};
