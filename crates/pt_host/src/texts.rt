//! What exceptions say of names and calls.

ghost use Rattle.std.specs.Prelude.{◌≡◌, ◌++◌, IfOk, OnOk};
ghost use Rattle.pt_host.specs.Texts.{binding_text, free_text, local_text, name_text};
ghost use Rattle.pt_host.specs.Texts.{missing_text, no_module_text, no_name_text};
ghost use Rattle.pt_host.specs.Texts.{not_callable_text};

use pt_base::{Memory, Text};
use pt_bind::BindErr;
use std::alloc::Global;

/// Puts a name between two texts behind a text.
fn push_name(text: &mut Text, before: &str, name: &str, behind: &str) -> Result<(), Memory>
    ensures { OnOk result (text.new ≡ text.old ++ before.now ++ name.now ++ behind.now) }
{
    text.push_str(before)?;
    text.push_str(name)?;
    text.push_str(behind)
}

/// A name between two texts.
fn about_name(alloc: Global, before: &str, name: &str, behind: &str) -> Result<Text, Memory>
    ensures { IfOk result (λ text. text ≡ before.now ++ name.now ++ behind.now) }
{
    let mut text = Text::new(alloc);
    push_name(&mut text, before, name, behind)?;
    Ok(text)
}

/// A local name has no value.
pub fn local_text(alloc: Global, name: &str) -> Result<Text, Memory>
    ensures { IfOk result (λ text. text ≡ local_text name.now) }
{
    let behind = "' where it is not associated with a value";
    about_name(alloc, "cannot access local variable '", name, behind)
}

/// A name of a function around has no value.
pub fn free_text(alloc: Global, name: &str) -> Result<Text, Memory>
    ensures { IfOk result (λ text. text ≡ free_text name.now) }
{
    let behind = "' where it is not associated with a value in enclosing scope";
    about_name(alloc, "cannot access free variable '", name, behind)
}

/// A name of the module has no value.
pub fn name_text(alloc: Global, name: &str) -> Result<Text, Memory>
    ensures { IfOk result (λ text. text ≡ name_text name.now) }
{
    about_name(alloc, "name '", name, "' is not defined")
}

/// A value of this class has no attribute of this name.
pub fn missing_text(alloc: Global, class: &str, name: &str) -> Result<Text, Memory>
    ensures { IfOk result (λ text. text ≡ missing_text class.now name.now) }
{
    let mut text = Text::new(alloc);
    push_name(&mut text, "'", class, "' object has no attribute '")?;
    text.push_str(name)?;
    text.push_str("'")?;
    Ok(text)
}

/// There is no module of this name.
pub fn no_module_text(alloc: Global, name: &str) -> Result<Text, Memory>
    ensures { IfOk result (λ text. text ≡ no_module_text name.now) }
{
    about_name(alloc, "No module named '", name, "'")
}

/// A module has no name of this text.
pub fn no_name_text(alloc: Global, name: &str) -> Result<Text, Memory>
    ensures { IfOk result (λ text. text ≡ no_name_text name.now) }
{
    about_name(alloc, "cannot import name '", name, "'")
}

/// An object of this class is no function.
pub fn not_callable_text(alloc: Global, class: &str) -> Result<Text, Memory>
    ensures { IfOk result (λ text. text ≡ not_callable_text class.now) }
{
    about_name(alloc, "'", class, "' object is not callable")
}

/// The arguments of a call don't fit the parameters of a function of this name.
pub fn binding_text(alloc: Global, function: &str, error: &BindErr) -> Result<Text, Memory>
    ensures { IfOk result (λ text. text ≡ binding_text function.now error.now) }
{
    let mut text = Text::from_str(alloc, function)?;
    match error {
        BindErr::Missing { name } => {
            push_name(&mut text, "() misses argument '", name.as_str(), "'")?;
            Ok(text)
        }
        BindErr::TooMany { given: _ } => {
            text.push_str("() got too many arguments")?;
            Ok(text)
        }
        BindErr::Unexpected { name } => {
            push_name(
                &mut text,
                "() got an unexpected argument '",
                name.as_str(),
                "'",
            )?;
            Ok(text)
        }
        BindErr::Double { name } => {
            push_name(&mut text, "() got argument '", name.as_str(), "' twice")?;
            Ok(text)
        }
        BindErr::Memory => Err(Memory),
    }
}
