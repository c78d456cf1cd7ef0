//! What a run has to write, written.

ghost use Rattle.std.specs.Prelude.{◌≡◌, ◌≤◌, ◌∷◌, [], Err, OnOk, IfErr};
ghost use Rattle.pt_base.specs.Faults.{Rose};
ghost use Rattle.pt_transfers.specs.pt_machine_state.Writing.{piece_of, pieces_of};
ghost use Rattle.pt_sinks.specs.Writing.{Took, TookFront};
ghost use Rattle.pt_sinks.specs.declared.writing.Out.TheVariants as stream;

use pt_base::Sink;
use pt_sinks::{Out, WriteErr, put};
use pt_transfers::{Write, Writes};

/// Writes a piece to its stream, in one call.
fn put_piece<O: Sink, L: Sink>(piece: &Write, out: &mut O, log: &mut L) -> Result<(), WriteErr>
    ensures ok { OnOk result (Took (O.taken out.old) (O.taken out.new) (L.taken log.old)
        (L.taken log.new) (piece_of piece.now ∷ [])) }
    ensures err { IfErr result (λ why. TookFront (O.taken out.old) (O.taken out.new)
        (L.taken log.old) (L.taken log.new) why (piece_of piece.now ∷ [])) }
    ensures out_failed { result ≡ Err (WriteErr.Failed stream.Out)
        → Rose (O.faults out.old) (O.faults out.new) × (O.faults out.new ≤ O.most out.new) }
    ensures log_failed { result ≡ Err (WriteErr.Failed stream.Log)
        → Rose (L.faults log.old) (L.faults log.new) × (L.faults log.new ≤ L.most log.new) }
    ensures most { (O.most out.new ≡ O.most out.old) × (L.most log.new ≡ L.most log.old) }
    ensures later { (O.faults out.old ≤ O.faults out.new) × (L.faults log.old ≤ L.faults log.new) }
{
    match piece {
        Write::Print(text) => put(Out::Out, text.as_str().as_bytes(), out, log),
        Write::Log(text) => put(Out::Log, text.as_str().as_bytes(), out, log),
    }
}

/// Writes the pieces in their order, each in one call, and empties the list, which keeps its memory.
///
/// # Errors
///
/// Failed where a sink's count of faults rose, and Memory. A front of the pieces is then written.
pub(crate) fn drain<O: Sink, L: Sink>(
    writes: &mut Writes,
    out: &mut O,
    log: &mut L,
) -> Result<(), WriteErr>
    ensures ok { OnOk result (Took (O.taken out.old) (O.taken out.new) (L.taken log.old)
        (L.taken log.new) (pieces_of writes.old)) }
    ensures emptied { OnOk result (pieces_of writes.new ≡ []) }
    ensures events { writes.new.events ≡ writes.old.events }
    ensures err { IfErr result (λ why. TookFront (O.taken out.old) (O.taken out.new)
        (L.taken log.old) (L.taken log.new) why (pieces_of writes.old)) }
    ensures out_failed { result ≡ Err (WriteErr.Failed stream.Out)
        → Rose (O.faults out.old) (O.faults out.new) × (O.faults out.new ≤ O.most out.new) }
    ensures log_failed { result ≡ Err (WriteErr.Failed stream.Log)
        → Rose (L.faults log.old) (L.faults log.new) × (L.faults log.new ≤ L.most log.new) }
    ensures most { (O.most out.new ≡ O.most out.old) × (L.most log.new ≡ L.most log.old) }
    ensures later { (O.faults out.old ≤ O.faults out.new) × (L.faults log.old ≤ L.faults log.new) }
{
    for piece in writes.items.as_slice() {
        put_piece(piece, out, log)?;
    }
    writes.items.clear();
    Ok(())
}
