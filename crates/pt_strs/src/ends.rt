ghost use Rattle.std.specs.Option.{option_map};
ghost use Rattle.std.specs.Str.{chars};
ghost use Rattle.pt_strs.specs.Answer.{within, Answers};
ghost use Rattle.pt_strs.specs.Strip.{stripped};

use crate::class::Class;
use crate::length::bounded;
use crate::{Scan, StrErr};
use pt_base::Text;
use std::alloc::Global;

/// A text without the characters of a set at its ends, at those that are asked; without blanks
/// where no set is given (Library Reference, `str.strip`, `str.lstrip`, `str.rstrip`). Length where
/// that has more than 16,777,216 characters.
pub fn strip(
    alloc: Global,
    text: &Text,
    set: Option<&Text>,
    left: bool,
    right: bool,
) -> Result<Text, StrErr>
    ensures { Answers result
        (within
        (stripped (option_map (λ s. chars s.now) set.entry) left right (chars text.now))) }
{
    let class = Class::of_strip(alloc, set)?;
    let mut rest = Scan::new(text.as_str());
    if left {
        rest = rest.without_front(&class);
    }
    if right {
        rest = rest.without_end(&class);
    }
    bounded(alloc, rest.as_str())
}
