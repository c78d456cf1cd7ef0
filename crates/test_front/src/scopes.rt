//! The scopes of names.

use pt_base::BlockId;
use pt_scopes::{Scope, Scopes};
use test_notation::{Printed, word};

fn name_of(scope: Scope) -> &'static str {
    match scope {
        Scope::Local => "Local",
        Scope::Cell => "Cell",
        Scope::Free => "Free",
        Scope::Global => "Global",
        Scope::Class => "Class",
    }
}

/// The scopes of names, each behind the number of its block.
pub fn scopes_of(out: &mut String, scopes: &Scopes, names: &str) -> Printed {
    let mut block: Option<u32> = None;
    for name in names.split_whitespace() {
        match block {
            None => block = name.parse::<u32>().ok(),
            Some(number) => {
                let scope = scopes.of(BlockId(number), name);
                word(out, scope.map_or("-", name_of))?;
                block = None;
            }
        }
    }
    Ok(())
}
