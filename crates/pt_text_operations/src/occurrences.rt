ghost use Rattle.std.specs.Prelude.{◌≡◌, ◌+◌, ◌<◌, ◌≤◌, ◌^◌, length};
ghost use Rattle.std.specs.Str.{chars};
ghost use Rattle.pt_strs.specs.Cut.{all_pieces};
ghost use Rattle.pt_text_operations.specs.Ends.{occurrences};

use pt_strs::{Scan, char_count};

/// How often a part stands in a text, behind one another.
fn separators(text: &str, part: &str) -> u64
    requires { 0 < length (chars part.now) }
    ensures { result + 1 ≡ length (all_pieces (chars part.now) (chars text.now)) }
{
    let most = char_count(text) as u64;
    let mut left = most;
    let mut scan = Scan::new(text);
    while let Some(_front) = scan.before(part) {
        left -= 1;
    }
    most - left
}

/// How often a part stands in a text, behind one another. An empty part stands before each character
/// and at the end (Library Reference, `str.count`).
pub fn occurrences(text: &str, part: &str) -> u128
    ensures value { result ≡ occurrences (chars part.now) (chars text.now) }
    ensures short { result ≤ 2 ^ 64 }
{
    if char_count(part) == 0 {
        return char_count(text) as u128 + 1;
    }
    separators(text, part) as u128
}
