//! Which code can be listed: that whose marks rise.

ghost use Rattle.std.specs.Prelude.{IsTrue};
ghost use Rattle.std.specs.List.{AllByRecursion};
ghost use Rattle.pt_ranges.specs.Marks.{Rises};

use pt_code::CodeBlock;
use pt_ranges::ActMark;

fn rise(marks: &[ActMark]) -> bool
    ensures { IsTrue result → Rises marks.now }
{
    for next in 1..marks.len() {
        if marks[next].pc.0 <= marks[next - 1].pc.0 {
            return false;
        }
    }
    true
}

/// Whether the marks of all blocks rise.
pub fn all_rise(blocks: &[CodeBlock]) -> bool
    ensures { IsTrue result → AllByRecursion (λ b. Rises b.marks) blocks.now }
{
    match blocks {
        [] => true,
        [first, rest @ ..] => rise(first.marks.as_slice()) && all_rise(rest),
    }
}
