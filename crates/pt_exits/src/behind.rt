//! What is asked of the place behind statements.

ghost use Rattle.std.specs.Prelude.{◌≡◌, map};
ghost use Rattle.pt_tree.specs.Syntax.{no_handlers};
ghost use Rattle.pt_tree.specs.Fold.{chained};
ghost use Rattle.pt_tree.specs.StatementFold.{handler_of, stms_of};
ghost use Rattle.sem_compile.specs.stm_pieces.Needed.{behind_branches as behind_branches_of, behind_loop as behind_loop_of, behind_tried as behind_tried_of, in_front as in_front_of, is_needed as is_needed_behind, needed_if as needed_if_so};
ghost use Rattle.pt_exits.specs.Asked.{asked};

use crate::fall_through::some_handler_goes_on;
use pt_tree::{Handler, Stmt};

/// What is asked of the place behind statements.
#[derive(Clone, Copy, Debug, PartialEq, Eq)]
pub enum Behind {
    /// That some way comes there.
    Needed,
    /// Nothing.
    Free,
    /// Nothing, since it is the place behind another way too.
    Reached,
}

/// Whether some way must come there.
pub fn is_needed(behind: Behind) -> bool
    ensures { result ≡ is_needed_behind (asked behind) }
{
    match behind {
        Behind::Needed => true,
        Behind::Free => false,
        Behind::Reached => false,
    }
}

/// That some way comes there, or nothing.
pub fn needed_if(needed: bool) -> Behind
    ensures { asked result ≡ needed_if_so needed }
{
    if needed { Behind::Needed } else { Behind::Free }
}

/// What is asked of the place behind a statement in front of others, the last of which has this place
/// behind it.
#[tactic(auto, using(crate::proofs::ExitLemmas::fronts))]
pub fn in_front(rest: &[Stmt], behind: Behind) -> Behind
    ensures { asked result ≡ in_front_of (stms_of rest.now) (asked behind) }
{
    if rest.len() > 0 {
        Behind::Needed
    } else {
        behind
    }
}

/// What is asked behind the `else` part of an `if`, where its branches go on too.
pub fn behind_branches(some_goes_on: bool, behind: Behind) -> Behind
    ensures { asked result ≡ behind_branches_of some_goes_on (asked behind) }
{
    if some_goes_on {
        Behind::Reached
    } else {
        behind
    }
}

/// What is asked behind the `else` part of a loop, where its `break` goes.
pub fn behind_loop(breaks: bool, behind: Behind) -> Behind
    ensures { asked result ≡ behind_loop_of breaks (asked behind) }
{
    if !breaks {
        return behind;
    }
    match behind {
        Behind::Needed => Behind::Needed,
        Behind::Free => Behind::Needed,
        Behind::Reached => Behind::Reached,
    }
}

/// What is asked behind the body of a `try` and its `else` part.
#[tactic(auto, using(crate::proofs::ExitLemmas::fronts))]
pub fn behind_tried(handlers: &[Handler], finally: &[Stmt], behind: Behind) -> Behind
    ensures { asked result ≡ behind_tried_of (chained no_handlers (map handler_of handlers.now))
        (stms_of finally.now) (asked behind) }
{
    if finally.len() > 0 {
        return Behind::Free;
    }
    if handlers.len() == 0 {
        return behind;
    }
    needed_if(is_needed(behind) && !some_handler_goes_on(handlers))
}
