ghost use Rattle.std.specs.Prelude.{◌≡◌};
ghost use Rattle.pt_tables.specs.Names.{keyword_names, builtin_names, method_names, special_names, event_names, command_names};
ghost use Rattle.pt_tables.specs.Rows.{numbered};

use crate::Table;
use crate::rows::{BUILTINS, COMMANDS, EVENTS, KEYWORDS, METHODS, SPECIALS};

/// The keywords, each with its place (Language Reference 2.3.1).
pub fn keywords() -> Table<'static, u16, 35>
    ensures { result ≡ numbered 0 keyword_names }
{
    Table::new(&KEYWORDS)
}

/// The names that are bound in every script, each with its place (Library Reference, "Built-in
/// Functions", "Built-in Constants" and "Built-in Exceptions").
pub fn builtins() -> Table<'static, u16, 90>
    ensures { result ≡ numbered 0 builtin_names }
{
    Table::new(&BUILTINS)
}

/// The methods of the builtin types, each with its place (Library Reference, "Built-in Types").
pub fn methods() -> Table<'static, u16, 81>
    ensures { result ≡ numbered 0 method_names }
{
    Table::new(&METHODS)
}

/// The special methods of classes, each with its place (Language Reference 3.3).
pub fn specials() -> Table<'static, u16, 46>
    ensures { result ≡ numbered 0 special_names }
{
    Table::new(&SPECIALS)
}

/// The monitoring events (Library Reference, "sys.monitoring", "Events"), each with its bit here.
pub fn events() -> Table<'static, u16, 16>
    ensures { result ≡ numbered 0 event_names }
{
    Table::new(&EVENTS)
}

/// The debugger commands and their short names, each with its place (Library Reference, "pdb").
pub fn commands() -> Table<'static, u16, 34>
    ensures { result ≡ numbered 0 command_names }
{
    Table::new(&COMMANDS)
}

#[cfg(test)]
mod tests {
    use super::*;
    use std::test::Fail;

    #[test]
    fn names_have_their_places(rt: HostRuntime) {
        // keyword, builtin, method, special method, event, command
        let rows: [(&str, [Option<u16>; 6]); 14] = [
            ("False", [Some(0), None, None, None, None, None]),
            ("break", [Some(8), None, None, None, None, Some(0)]),
            ("yield", [Some(34), None, None, None, None, None]),
            ("print", [None, Some(0), None, None, None, None]),
            ("format", [None, Some(62), Some(38), None, None, None]),
            ("ValueError", [None, Some(89), None, None, None, None]),
            ("index", [None, None, Some(15), None, None, None]),
            ("__iter__", [None, None, Some(32), Some(12), None, None]),
            ("__hash__", [None, None, None, Some(45), None, None]),
            ("STOP_ITERATION", [None, None, None, None, Some(15), None]),
            ("cont", [None, None, None, None, None, Some(19)]),
            ("q", [None, None, None, None, None, Some(33)]),
            ("", [None, None, None, None, None, None]),
            ("Print", [None, None, None, None, None, None]),
        ];
        for (name, places) in rows {
            assert_eq!(rt; keywords().get(name), places[0], "keyword {name}");
            assert_eq!(rt; builtins().get(name), places[1], "builtin {name}");
            assert_eq!(rt; methods().get(name), places[2], "method {name}");
            assert_eq!(rt; specials().get(name), places[3], "special method {name}");
            assert_eq!(rt; events().get(name), places[4], "event {name}");
            assert_eq!(rt; commands().get(name), places[5], "command {name}");
        }
    }

    #[test]
    fn every_listed_name_is_found(rt: HostRuntime) {
        for (name, place) in &KEYWORDS {
            assert_eq!(rt; keywords().get(name), Some(*place), "keyword {name}");
        }
        for (name, place) in &BUILTINS {
            assert_eq!(rt; builtins().get(name), Some(*place), "builtin {name}");
        }
        for (name, place) in &METHODS {
            assert_eq!(rt; methods().get(name), Some(*place), "method {name}");
        }
        for (name, place) in &SPECIALS {
            assert_eq!(rt; specials().get(name), Some(*place), "special method {name}");
        }
        for (name, bit) in &EVENTS {
            assert_eq!(rt; events().get(name), Some(*bit), "event {name}");
        }
        for (name, place) in &COMMANDS {
            assert_eq!(rt; commands().get(name), Some(*place), "command {name}");
        }
    }

    #[test]
    fn near_misses_are_not_found(rt: HostRuntime) {
        let names = [
            "",
            " ",
            "false",
            "Fals",
            "Falsee",
            "prin",
            "print ",
            "Len",
            "value_error",
            "ValueErro",
            "appendd",
            "__init_",
            "_init__",
            "__hash___",
            "LINe",
            "PY_START ",
            "PY_STAR",
            "BREAK",
            "contt",
            "qu",
            "match",
            "case",
            "sys",
            "exec_",
            "caf\u{e9}",
        ];
        for name in names {
            assert_eq!(rt; keywords().get(name), None, "keyword {name}");
            assert_eq!(rt; builtins().get(name), None, "builtin {name}");
            assert_eq!(rt; methods().get(name), None, "method {name}");
            assert_eq!(rt; specials().get(name), None, "special method {name}");
            assert_eq!(rt; events().get(name), None, "event {name}");
            assert_eq!(rt; commands().get(name), None, "command {name}");
        }
    }

    #[test]
    fn tables_have_other_values(rt: HostRuntime) -> Result<(), Fail> {
        let rows = [("up", true), ("down", false)];
        let table: Table<'_, bool, 2> = Table::new(&rows);
        assert_eq!(rt; table.get("down"), Some(false));
        let shown = format!(in rt.alloc(); "{table:?}")?;
        assert_eq!(rt;
            shown.as_str(),
            "Table { rows: [(\"up\", true), (\"down\", false)] }"
        );
        Ok(())
    }
}
