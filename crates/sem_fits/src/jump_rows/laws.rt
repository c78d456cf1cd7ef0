//! Laws of a block, each the contract of a function that does nothing.

ghost use Rattle.sem_fits.specs.jump_rows.Rows.{
  ExitIsClosed,
  FinallyIsClosed,
  ForIsClosed,
  HandlerIsClosed,
  TestsAreClosed,
  WithIsClosed,
};

/// In the code of a block with a `for`, tests of handlers, a handler, a `finally` part, a `with`
/// and its exit, each of these is closed: its slot is made anew on each way in, kept by no way out,
/// and one slot in between. So what is asked of closed parts can be met.
pub fn closed_parts_of_a_block_are_closed()
    ensures for_part { ForIsClosed }
    ensures tests { TestsAreClosed }
    ensures handler { HandlerIsClosed }
    ensures finally_part { FinallyIsClosed }
    ensures with_part { WithIsClosed }
    ensures exit { ExitIsClosed }
{}
