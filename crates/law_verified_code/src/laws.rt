//! Laws of verified code, each the contract of a function that does nothing.

ghost use Rattle.sem_fits.specs.fits.Block.{Block};
ghost use Rattle.pt_place_slots.specs.declared.tables.BlockSlots.{BlockSlots};
ghost use Rattle.law_verified_code.specs.Laws.{TablesTellCode, TablesTellSlots, VerifiedCodeNeverHalts};

use pt_place_slots::tables_answer_jumps;

/// The tables of a block that fits tell what a jump asks of its slots.
pub fn tables_tell_what_jumps_ask()
    ensures { (b : Block) (s : BlockSlots) → TablesTellSlots b s }
{
    tables_answer_jumps();
}

/// So do the tables that are made of a code whose blocks fit, of each of its blocks.
pub fn tables_of_code_tell_what_jumps_ask()
    ensures { TablesTellCode }
{
    tables_answer_jumps();
}

/// The run of code from anyone whose blocks fit never halts unfinished, in code objects that are
/// told of their slots as the tables of the code tell: over each host, with its hooks, tools and
/// generators, and under each debugger, wherever that jumps. A run may have blocks of more than one
/// code, as a script's and its prelude's.
pub fn verified_code_never_halts<D, N, V, W>()
    ensures { VerifiedCodeNeverHalts D N V W }
{}
