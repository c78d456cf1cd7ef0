//! The target of a jump, and why none is permitted (Library Reference, "inspect": `f_lineno`).
ghost use Rattle.std.specs.Prelude.{◌≡◌, ◌+◌, ℕ, MatchBool, None, Option, option_map};
ghost use Rattle.pt_instr.specs.Effects.{Kinds};
ghost use Rattle.sem_fits.specs.fits.Block.{Block};
ghost use Rattle.sem_fits.specs.fits.Places.{Gets};
ghost use Rattle.sem_fits.specs.fits.Jumps.{Jumps};
ghost use Rattle.pt_jump.specs.Slots.{AnswersAt, IsApart, IsTogether, TellsSlots};
ghost use Rattle.pt_jump.specs.Targets.{answer_of, first_on, nearer, starts_on};

use crate::slots::PlaceSlots;
use pt_base::{Line, Pc};
use pt_code::Start;

/// Where a jump leads: the place, and how many slots stay.
#[derive(Clone, Copy, Debug, PartialEq, Eq)]
pub struct Land {
    pub pc: Pc,
    pub depth: u32,
}

/// Why a jump isn't permitted.
#[derive(Clone, Copy, Debug, PartialEq, Eq)]
pub enum JumpErr {
    /// No statement starts on the line.
    NoStatement,
    /// A `finally` part would be left or entered.
    OutOfFinally,
    /// Another part of the block would be entered.
    IntoBlock,
}

/// Whether a statement starts on a line at a place to which some way comes.
fn starts_on<S: PlaceSlots>(slots: &S, line: Line, start: &Start) -> bool
    ensures { result ≡ starts_on (S.told slots.now) line.0 start.now }
{
    start.line.0 == line.0 && slots.count(start.pc).is_some()
}

/// The nearer of two places to the start of the block.
fn nearer(first: Option<Pc>, pc: Pc) -> Option<Pc>
    ensures { option_map (λ p. p.0) result ≡ nearer (option_map (λ p. p.0) first) pc.0 }
{
    match first {
        None => Some(pc),
        Some(first) => Some(Pc(first.0.min(pc.0))),
    }
}

/// The first place of a statement on a line.
fn first_start<S: PlaceSlots>(slots: &S, line: Line, starts: &[Start]) -> Option<Pc>
    ensures { option_map (λ p. p.0) result
        ≡ first_on (S.told slots.now) line.0 None starts.now }
{
    let mut first = None;
    for start in starts {
        if starts_on(slots, line, start) {
            first = nearer(first, start.pc);
        }
    }
    first
}

/// Whether the topmost of so many slots isn't the same at two places.
fn is_apart<S: PlaceSlots>(slots: &S, from: Pc, to: Pc, count: u32) -> bool
    requires { S.sound slots.now }
    ensures { (b : Block) → S.tells slots.now b
        → MatchBool result (IsApart b from.0 to.0 count) (IsTogether b from.0 to.0 count) }
{
    if count == 0 {
        return false;
    }
    !slots.is_shared(count - 1, from, to)
}

/// The answer to a jump to a place.
fn answer_at<S: PlaceSlots>(slots: &S, from: Pc, to: Pc) -> Result<Land, JumpErr>
    requires { S.sound slots.now }
    ensures { (b : Block) → S.tells slots.now b
        → AnswersAt b (S.told slots.now) from.0 to.0 (answer_of result) }
{
    let depth = slots.count(to).unwrap_or(0);
    if is_apart(slots, from, to, slots.held(from).max(slots.held(to))) {
        Err(JumpErr::OutOfFinally)
    } else if is_apart(slots, from, to, depth) {
        Err(JumpErr::IntoBlock)
    } else {
        Ok(Land { pc: to, depth })
    }
}

/// Where a jump from a place to a line leads: to the first statement that starts there, with the
/// slots that it has. It isn't permitted where none starts there, where a `finally` part would be
/// left or entered, or where another slot of the target isn't there yet. It takes no memory.
///
/// # Errors
///
/// Why it isn't permitted, in this order.
pub fn target<S: PlaceSlots>(
    slots: &S,
    starts: &[Start],
    from: Pc,
    line: Line,
) -> Result<Land, JumpErr>
    requires { S.sound slots.now }
    ensures { (b : Block) → S.tells slots.now b → TellsSlots b (S.told slots.now)
        → b.starts ≡ starts.now → (ks : Kinds) → Gets b b.size from.0 ks
        → Jumps b from.0 ks line.0 (answer_of result) }
{
    match first_start(slots, line, starts) {
        None => Err(JumpErr::NoStatement),
        Some(to) => answer_at(slots, from, to),
    }
}
