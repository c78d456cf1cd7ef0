//! Laws of the machine of code, each the contract of a function that does nothing.

ghost use Rattle.std.specs.Prelude.{◌≡◌, ℕ, List, false};
ghost use Rattle.pt_ranges.specs.declared.handlers.Handler.{Handler};
ghost use Rattle.sem_control.specs.control.Samples.{counting, names_its_exception, nested_body};
ghost use Rattle.sem_control.specs.control.Turn.{End};
ghost use Rattle.sem_code.specs.slots.CodeObject.{CodeObject};
ghost use Rattle.sem_code.specs.slots.Laws.{BeginsAtMark, SentWhereItLacks, StuckNowhere, StuckWhereItLacks, TellSame};
ghost use Rattle.sem_code.specs.slots.Machine.{turn};
ghost use Rattle.sem_code.specs.slots.Needs.{is_stuck};
ghost use Rattle.sem_code.specs.slots.Samples.{counting_code, counting_given, falls_through_given, gathering, gathering_code, gathering_given, handled_code, handled_given, nested_code, nested_given};
ghost use Rattle.sem_code.specs.slots.Slots.{Slots, off, reraises};

/// Where an instruction stands, the state is stuck exactly where its slots haven't what the row of
/// the instruction's effect takes, and so is one to which a raise is sent; where none stands it is
/// stuck. No other state is.
#[tactic(auto, using(crate::proofs::slots::StuckLaw::stuck_at, crate::proofs::slots::StuckLaw::stuck_sent, crate::proofs::slots::StuckLaw::stuck_nowhere))]
pub fn a_state_is_stuck_where_its_instruction_lacks<V>()
    ensures at_an_instruction { (code : CodeObject V) (pc : ℕ) → StuckWhereItLacks code pc }
    ensures sent_to { (code : CodeObject V) (pc : ℕ) → SentWhereItLacks code pc }
    ensures nowhere { (code : CodeObject V) (pc : ℕ) → StuckNowhere code pc }
    ensures goes_on { (c : CodeObject V) (e : V) (rows : List Handler) (ss : Slots V) → is_stuck (turn c (reraises e rows ss)) ≡ false }
    ensures ended { (code : CodeObject V) (e : End V) → is_stuck (turn code (off e)) ≡ false }
{}

/// An act begins exactly where an instruction has a mark, and has that mark: whatever the
/// instruction does, it is one ask.
#[tactic(auto, using(crate::proofs::slots::MarkLaw::begins_at))]
pub fn an_act_begins_at_each_mark<V>()
    ensures { (code : CodeObject V) (pc : ℕ) → BeginsAtMark code pc }
{}

/// Of four scripts tree and code tell the same acts, with their marks and asks, the same asks
/// without a mark, notes and end: a loop; a `finally` part that holds a `return`, which a `break`
/// replaces; handlers, one that takes the raise and one that doesn't; and a comprehension.
pub fn scripts_are_followed_by_their_code()
    ensures counting { TellSame counting counting_code counting_given }
    ensures nested { TellSame nested_body nested_code nested_given }
    ensures handled { TellSame names_its_exception handled_code handled_given }
    ensures falls_through { TellSame names_its_exception handled_code falls_through_given }
    ensures gathering { TellSame gathering gathering_code gathering_given }
{}
