//! Methods of builtin values by their names and numbers.

ghost use Rattle.std.specs.Prelude.{◌≡◌, map, slice_get, Some};
ghost use Rattle.std.specs.Option.{option_copied};
ghost use Rattle.pt_methods.specs.Names.{among, listed, method_number, of_dictionaries, of_lists};
ghost use Rattle.pt_methods.specs.Names.{of_method_number, of_sets, of_texts, of_tuples};

use pt_content::MethodName;
use pt_heap::Object;

/// The methods of texts.
pub const STR_METHODS: [(&str, MethodName); 10] = [
    ("join", MethodName::Join),
    ("split", MethodName::Split),
    ("strip", MethodName::Strip),
    ("lstrip", MethodName::Lstrip),
    ("rstrip", MethodName::Rstrip),
    ("replace", MethodName::Replace),
    ("find", MethodName::Find),
    ("startswith", MethodName::Startswith),
    ("endswith", MethodName::Endswith),
    ("count", MethodName::Count),
];

/// The methods of lists.
pub const LIST_METHODS: [(&str, MethodName); 11] = [
    ("append", MethodName::Append),
    ("extend", MethodName::Extend),
    ("insert", MethodName::Insert),
    ("pop", MethodName::Pop),
    ("remove", MethodName::Remove),
    ("index", MethodName::Index),
    ("count", MethodName::Count),
    ("reverse", MethodName::Reverse),
    ("sort", MethodName::Sort),
    ("clear", MethodName::Clear),
    ("copy", MethodName::Copy),
];

/// The methods of tuples.
pub const TUPLE_METHODS: [(&str, MethodName); 2] = [
    ("index", MethodName::Index),
    ("count", MethodName::Count),
];

/// The methods of dictionaries.
pub const DICT_METHODS: [(&str, MethodName); 9] = [
    ("get", MethodName::Get),
    ("keys", MethodName::Keys),
    ("values", MethodName::Values),
    ("items", MethodName::Items),
    ("pop", MethodName::Pop),
    ("setdefault", MethodName::Setdefault),
    ("update", MethodName::Update),
    ("clear", MethodName::Clear),
    ("copy", MethodName::Copy),
];

/// The methods of sets.
pub const SET_METHODS: [(&str, MethodName); 5] = [
    ("add", MethodName::Add),
    ("discard", MethodName::Discard),
    ("remove", MethodName::Remove),
    ("clear", MethodName::Clear),
    ("copy", MethodName::Copy),
];

/// The number of the first method, behind those of functions.
pub const FIRST_METHOD: u32 = 28;

/// The methods, in the order of their numbers.
pub const METHODS: [MethodName; 28] = [
    MethodName::Join,
    MethodName::Split,
    MethodName::Strip,
    MethodName::Lstrip,
    MethodName::Rstrip,
    MethodName::Replace,
    MethodName::Find,
    MethodName::Startswith,
    MethodName::Endswith,
    MethodName::Count,
    MethodName::Append,
    MethodName::Extend,
    MethodName::Insert,
    MethodName::Pop,
    MethodName::Remove,
    MethodName::Index,
    MethodName::Reverse,
    MethodName::Sort,
    MethodName::Clear,
    MethodName::Copy,
    MethodName::Get,
    MethodName::Keys,
    MethodName::Values,
    MethodName::Items,
    MethodName::Setdefault,
    MethodName::Update,
    MethodName::Add,
    MethodName::Discard,
];

/// The method of a name in a list of methods.
fn among(name: &str, rows: &[(&str, MethodName)]) -> Option<MethodName>
    ensures { result ≡ among name.now (map (λ r. (r.0.now, r.1)) rows.now) }
{
    for row in rows {
        if row.0 == name {
            return Some(row.1);
        }
    }
    None
}

/// The method of texts of a name.
fn of_texts(name: &str) -> Option<MethodName>
    ensures { result ≡ of_texts name.now }
{
    among(name, STR_METHODS.as_slice())
}

/// The method of lists of a name.
fn of_lists(name: &str) -> Option<MethodName>
    ensures { result ≡ of_lists name.now }
{
    among(name, LIST_METHODS.as_slice())
}

/// The method of tuples of a name.
fn of_tuples(name: &str) -> Option<MethodName>
    ensures { result ≡ of_tuples name.now }
{
    among(name, TUPLE_METHODS.as_slice())
}

/// The method of dictionaries of a name.
fn of_dictionaries(name: &str) -> Option<MethodName>
    ensures { result ≡ of_dictionaries name.now }
{
    among(name, DICT_METHODS.as_slice())
}

/// The method of sets of a name.
fn of_sets(name: &str) -> Option<MethodName>
    ensures { result ≡ of_sets name.now }
{
    among(name, SET_METHODS.as_slice())
}

/// The method of a name that an object has.
pub fn listed(name: &str, object: Option<&Object>) -> Option<MethodName>
    ensures { result ≡ listed name.now (option_copied object.entry) }
{
    match object {
        Some(Object::Str(_)) => of_texts(name),
        Some(Object::List(_)) => of_lists(name),
        Some(Object::Tuple(_)) => of_tuples(name),
        Some(Object::Dict(_)) => of_dictionaries(name),
        Some(Object::Set(_)) => of_sets(name),
        _ => None,
    }
}

/// The method at a place of a list of methods.
fn method_at(methods: &[MethodName], place: usize) -> Option<MethodName>
    ensures { result ≡ slice_get methods.now place }
{
    methods.get(place).copied()
}

/// The method of a number, if it is one of a method.
pub fn of_method_number(number: u32) -> Option<MethodName>
    ensures { result ≡ of_method_number number }
{
    if number < FIRST_METHOD {
        return None;
    }
    method_at(METHODS.as_slice(), (number - FIRST_METHOD) as usize)
}

/// The number of a method.
pub fn method_number(method: MethodName) -> u32
    ensures number { result ≡ method_number method }
    ensures back { of_method_number result ≡ Some method }
{
    match method {
        MethodName::Join => 28,
        MethodName::Split => 29,
        MethodName::Strip => 30,
        MethodName::Lstrip => 31,
        MethodName::Rstrip => 32,
        MethodName::Replace => 33,
        MethodName::Find => 34,
        MethodName::Startswith => 35,
        MethodName::Endswith => 36,
        MethodName::Count => 37,
        MethodName::Append => 38,
        MethodName::Extend => 39,
        MethodName::Insert => 40,
        MethodName::Pop => 41,
        MethodName::Remove => 42,
        MethodName::Index => 43,
        MethodName::Reverse => 44,
        MethodName::Sort => 45,
        MethodName::Clear => 46,
        MethodName::Copy => 47,
        MethodName::Get => 48,
        MethodName::Keys => 49,
        MethodName::Values => 50,
        MethodName::Items => 51,
        MethodName::Setdefault => 52,
        MethodName::Update => 53,
        MethodName::Add => 54,
        MethodName::Discard => 55,
    }
}
