ghost use Rattle.std.specs.Prelude.{◌≡◌, ◌≤◌, ◌∷◌, [], Err, OnOk, IfErr};
ghost use Rattle.pt_base.specs.Faults.{Rose};
ghost use Rattle.sem_run.specs.run.Run.{write};
ghost use Rattle.pt_sinks.specs.Writing.{Took, TookFront, sink_of};
ghost use Rattle.pt_sinks.specs.declared.writing.Out.TheVariants as stream;
ghost use Rattle.pt_sinks.specs.declared.writing.WriteErr.TheVariants.{Memory as out_of_memory};

use pt_base::{Memory, Sink, SinkErr};

/// A stream that is written to.
#[derive(Clone, Copy, Debug, PartialEq, Eq)]
pub enum Out {
    Out,
    Log,
}

/// Why a piece was not taken whole.
#[derive(Clone, Copy, Debug, PartialEq, Eq)]
pub enum WriteErr {
    /// The count of faults of this stream rose.
    Failed { which: Out },
    Memory,
}

impl From<Memory> for WriteErr {
    ghost from_gives = { λ _ e. e ≡ out_of_memory };

    fn from(_: Memory) -> Self {
        WriteErr::Memory
    }
}

/// Writes the piece to a stream, in one call of its sink; the other isn't touched.
///
/// # Errors
///
/// Failed where the sink's count of faults rose, and Memory. A front of the piece is then written,
/// or nothing.
pub fn put<O: Sink, L: Sink>(
    which: Out,
    piece: &[u8],
    out: &mut O,
    log: &mut L,
) -> Result<(), WriteErr>
    ensures ok { OnOk result
        (Took (O.taken out.old) (O.taken out.new) (L.taken log.old) (L.taken log.new)
        (write (sink_of which) piece.now ∷ [])) }
    ensures err { IfErr result (λ why.
        TookFront (O.taken out.old) (O.taken out.new) (L.taken log.old) (L.taken log.new)
        why (write (sink_of which) piece.now ∷ [])) }
    ensures which { (w : _) → result ≡ Err (WriteErr.Failed w) → w ≡ which }
    ensures out_failed { result ≡ Err (WriteErr.Failed stream.Out)
        → Rose (O.faults out.old) (O.faults out.new) × (O.faults out.new ≤ O.most out.new) }
    ensures log_failed { result ≡ Err (WriteErr.Failed stream.Log)
        → Rose (L.faults log.old) (L.faults log.new) × (L.faults log.new ≤ L.most log.new) }
    ensures most { (O.most out.new ≡ O.most out.old) × (L.most log.new ≡ L.most log.old) }
    ensures later { (O.faults out.old ≤ O.faults out.new)
        × (L.faults log.old ≤ L.faults log.new) }
{
    match which {
        Out::Out => match out.write(piece) {
            Ok(()) => Ok(()),
            Err(SinkErr::Failed) => Err(WriteErr::Failed { which: Out::Out }),
            Err(SinkErr::Memory) => Err(WriteErr::Memory),
        },
        Out::Log => match log.write(piece) {
            Ok(()) => Ok(()),
            Err(SinkErr::Failed) => Err(WriteErr::Failed { which: Out::Log }),
            Err(SinkErr::Memory) => Err(WriteErr::Memory),
        },
    }
}
