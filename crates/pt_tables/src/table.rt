ghost use Rattle.std.specs.Prelude.{◌≡◌, ◌↔◌, length, Contains, IsTrue};
ghost use Rattle.pt_tables.specs.Rows.{listed, names_of, value_of, are_different};

use std::marker::Model;

/// N names that differ, each with a value.
#[derive(Debug, Drop)]
pub struct Table<'a, V: Copy, const N: usize> {
    rows: &'a [(&'a str, V)],
}

impl<'a, V: Copy, const N: usize> Model for Table<'a, V, N> {
    ghost use Rattle.std.specs.Prelude.{◌≡◌, ℕ, List, length, IsTrue};
    ghost use Rattle.std.specs.Coded.{coded_list, coded×, coded_ℕ};
    ghost use Rattle.pt_tables.specs.Rows.{listed, names_of, are_different};

    ghost Value = { List (List ℕ × V) };

    ghost coded = { coded_list (coded× (coded_list coded_ℕ) V.code) };

    ghost view = { λ t. listed t.rows.now };

    ghost invariant = { λ t. (length t.rows.now ≡ N) × IsTrue (are_different (names_of (listed t.rows.now))) };
}

/// The value in the first row with this name.
fn find<V: Copy>(rows: &[(&str, V)], name: &str) -> Option<V>
    ensures { result ≡ value_of (listed rows.now) name.now }
{
    for (listed, value) in rows {
        if *listed == name {
            return Some(*value);
        }
    }
    None
}

impl<'a, V: Copy, const N: usize> Table<'a, V, N> {
    /// The table of these rows.
    pub fn new(rows: &'a [(&'a str, V)]) -> Table<'a, V, N>
        requires length { length rows.now ≡ N }
        requires different { IsTrue (are_different (names_of (listed rows.now))) }
        ensures { result ≡ listed rows.now }
    {
        Table { rows }
    }

    /// The value behind a name, or `None` where the name is not listed.
    pub fn get(&self, name: &str) -> Option<V>
        ensures value { result ≡ value_of self.now name.now }
        ensures each { (v : V) → (Contains self.now (name.now, v)) ↔ (result ≡ Some v) }
    {
        find(self.rows, name)
    }
}
