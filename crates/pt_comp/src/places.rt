//! Places over more slots, and what handler rows cover.

ghost use Rattle.std.specs.Prelude.{◌≡◌, ◌+◌, [], true, IfOk, OnOk};
ghost use Rattle.pt_tree.specs.declared.expression.Constant.TheVariants.{Bool as BoolConstant};
ghost use Rattle.pt_assembler.specs.Piece.{const, move};
ghost use Rattle.pt_assembler.specs.Layout.{layout};
ghost use Rattle.pt_write_simple.specs.pt_stm_forms.Compound.{ensured_from, over_more};

use pt_assembler::{Operation, Place, Writer};
use pt_base::{Memory, Pc};
use pt_instr::Instr;
use pt_ranges::Handler;
use pt_tree::Constant;

/// What follows stands over one slot more. Gives the place of what stands around.
pub fn over_slot(w: &mut Writer) -> Result<Place, Memory>
    ensures { IfOk result (λ p. (p ≡ w.old.place) × (w.new ≡ over_more 1 w.old)) }
{
    let place = w.place();
    let depth = place.depth.checked_add(1).ok_or(Memory)?;
    w.set_place(Place {
        around: place.around,
        depth,
    });
    Ok(place)
}

/// What was written from a place on is covered by a row that takes each completion, and goes on behind
/// it with a normal one where nothing leaves.
pub fn end_ensured(w: &mut Writer, from: u32, depth: u32) -> Result<(), Memory>
    ensures { OnOk result (w.new ≡ ensured_from from depth w.old) }
{
    w.step(Operation::Plain(Instr::Normal))?;
    let end = Pc(w.at());
    w.row(Handler {
        from: Pc(from),
        to: end,
        target: end,
        depth,
        always: true,
    })
}

/// True, without an act.
pub fn truth(w: &mut Writer) -> Result<(), Memory>
    ensures { OnOk result (w.new ≡ layout (move (const (BoolConstant true))) [] w.old) }
{
    let number = w.constant(&Constant::Bool(true))?;
    w.step(Operation::Plain(Instr::Const(number)))
}
