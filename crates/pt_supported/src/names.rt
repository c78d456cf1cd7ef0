ghost use Rattle.std.specs.Prelude.{◌≡◌, Some, None, bytes_eq, map, option_map, not};
ghost use Rattle.std.specs.List.{list_any};
ghost use Rattle.pt_supported.specs.Built.{are_available, are_bound_available, class_word};
ghost use Rattle.pt_supported.specs.Built.{is_available, is_meant};
ghost use Rattle.pt_supported.specs.Built.{is_available_if, is_either_available};
ghost use Rattle.pt_supported.specs.Built.{unbuilt_star, unless};

use pt_base::{Line, Text};
use pt_builtins::{BuiltinLookup, builtin, is_unbuilt_name};
use pt_tree::{Alias, NamedParameter};

/// Whether a name is the keyword, in other letters that stand for the same.
fn is_class_word(name: &str) -> bool
    ensures { result ≡ bytes_eq name.now class_word }
{
    name == "class"
}

/// Whether runs have what a name means by itself, or miss it where it is read.
fn is_meant(name: &str) -> bool
    ensures { result ≡ is_meant name.now }
{
    match builtin(name) {
        BuiltinLookup::Unbound => true,
        BuiltinLookup::Found(_) => true,
        BuiltinLookup::Unavailable => is_unbuilt_name(name),
    }
}

/// Whether a name may stand in a script.
#[tactic(auto, unfolding(crate::specs::Built::is_available))]
pub fn is_available(name: &str) -> bool
    ensures { result ≡ is_available name.now }
{
    !is_class_word(name) && is_meant(name)
}

/// The same of a name that need not be written.
pub fn is_available_if(name: &Option<Text>) -> bool
    ensures { result ≡ is_available_if name.now }
{
    match name {
        Some(name) => is_available(name.as_str()),
        None => true,
    }
}

/// Whether a run has what each of these names means by itself.
pub fn are_available(names: &[Text]) -> bool
    ensures { result ≡ are_available names.now }
{
    for name in names {
        if !is_available(name.as_str()) {
            return false;
        }
    }
    true
}

/// The same of the name that an import binds.
fn is_either_available(name: &str, alias: &Option<Text>) -> bool
    ensures { result ≡ is_either_available name.now alias.now }
{
    match alias {
        Some(alias) => is_available(alias.as_str()),
        None => is_available(name),
    }
}

/// The same of the names that imports bind.
pub fn are_bound_available(names: &[Alias]) -> bool
    ensures { result ≡ are_bound_available names.now }
{
    for alias in names {
        if !is_either_available(alias.name.as_str(), &alias.alias) {
            return false;
        }
    }
    true
}

/// The line of a node, unless it is supported.
pub fn unless(is_built: bool, line: Line) -> Option<Line>
    ensures { option_map (λ l. l.0) result ≡ unless is_built line.0 }
{
    if is_built { None } else { Some(line) }
}

/// The line of `*name` or `**name`, unless its name is available.
pub fn star(parameter: &Option<NamedParameter>) -> Option<Line>
    ensures { option_map (λ l. l.0) result ≡ unbuilt_star parameter.now }
{
    match parameter {
        Some(parameter) => unless(is_available(parameter.name.as_str()), parameter.line),
        None => None,
    }
}
