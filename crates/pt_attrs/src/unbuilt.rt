ghost use Rattle.std.specs.Prelude.{◌≡◌, [], ◌∷◌, map, nat_eq};
ghost use Rattle.std.specs.List.{ends_with, starts_with};
ghost use Rattle.std.specs.Option.{option_copied};
ghost use Rattle.pt_attrs.specs.Unbuilt.{is_listed, is_special, is_unbuilt, is_unbuilt_on};

use pt_heap::Object;

/// The methods of texts that a run does not have.
pub const STR_NAMES: [&str; 37] = [
    "capitalize",
    "casefold",
    "center",
    "encode",
    "expandtabs",
    "format",
    "format_map",
    "index",
    "isalnum",
    "isalpha",
    "isascii",
    "isdecimal",
    "isdigit",
    "isidentifier",
    "islower",
    "isnumeric",
    "isprintable",
    "isspace",
    "istitle",
    "isupper",
    "ljust",
    "lower",
    "maketrans",
    "partition",
    "removeprefix",
    "removesuffix",
    "rfind",
    "rindex",
    "rjust",
    "rpartition",
    "rsplit",
    "splitlines",
    "swapcase",
    "title",
    "translate",
    "upper",
    "zfill",
];

/// The methods of dictionaries that a run does not have.
pub const DICT_NAMES: [&str; 2] = ["fromkeys", "popitem"];

/// The methods of sets that a run does not have.
pub const SET_NAMES: [&str; 12] = [
    "difference",
    "difference_update",
    "intersection",
    "intersection_update",
    "isdisjoint",
    "issubset",
    "issuperset",
    "pop",
    "symmetric_difference",
    "symmetric_difference_update",
    "union",
    "update",
];

/// Whether a name is one of a list.
fn is_listed(name: &str, names: &[&str]) -> bool
    ensures { result ≡ is_listed name.now (map (λ n. n.now) names.now) }
{
    for listed in names {
        if *listed == name {
            return true;
        }
    }
    false
}

/// Whether a name begins with two underscores.
fn begins(name: &str) -> bool
    ensures { result ≡ starts_with nat_eq name.now (95 ∷ 95 ∷ []) }
{
    name.starts_with("__")
}

/// Whether a name ends with two underscores.
fn ends(name: &str) -> bool
    ensures { result ≡ ends_with nat_eq name.now (95 ∷ 95 ∷ []) }
{
    name.ends_with("__")
}

/// Whether something stands between two underscores and two.
pub fn is_special(name: &str) -> bool
    ensures { result ≡ is_special name.now }
{
    if name.len() <= 4 {
        return false;
    }
    begins(name) && ends(name)
}

/// Whether a name is one that a run does not have on an object.
fn is_unbuilt_on(object: &Object, name: &str) -> bool
    ensures { result ≡ is_unbuilt_on object.now name.now }
{
    match object {
        Object::Str(_) => is_special(name) || is_listed(name, STR_NAMES.as_slice()),
        Object::Dict(_) => is_special(name) || is_listed(name, DICT_NAMES.as_slice()),
        Object::Set(_) => is_special(name) || is_listed(name, SET_NAMES.as_slice()),
        Object::List(_) => is_special(name),
        _ => false,
    }
}

/// Whether a name is one that a run does not have on an object, or on any.
pub fn is_unbuilt(object: Option<&Object>, name: &str) -> bool
    ensures { result ≡ is_unbuilt (option_copied object.entry) name.now }
{
    if name == "__dict__" {
        return true;
    }
    match object {
        Some(object) => is_unbuilt_on(object, name),
        None => false,
    }
}
