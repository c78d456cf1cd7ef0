ghost use Rattle.std.specs.Prelude.{◌≡◌};
ghost use Rattle.std.specs.Str.{chars};
ghost use Rattle.pt_strs.specs.Cut.{place_of};

use crate::Scan;
use crate::length::char_count;
use pt_base::Text;

/// The first place of a part, in characters (Library Reference, `str.find`). None where the text
/// doesn't have the part.
pub fn find(text: &Text, part: &Text) -> Option<u64>
    ensures { result ≡ place_of (chars part.now) (chars text.now) }
{
    let mut scan = Scan::new(text.as_str());
    match scan.before(part.as_str()) {
        Some(front) => Some(char_count(front) as u64),
        None => None,
    }
}
