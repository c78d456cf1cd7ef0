/// A function of the whole prelude, in the order of the text.
#[derive(Clone, Copy, Debug, PartialEq, Eq)]
pub enum Helper {
    IterOf,
    NextOf,
    NextOrOf,
    LenOf,
    TruthOf,
    BinaryOf,
    SameOf,
    PairsOf,
    InOf,
    ListOf,
    TakeOf,
    TupleOf,
    SetOf,
    UpdateOf,
    DictOf,
    ExtendOf,
    JoinOf,
    SumOf,
    AnyOf,
    AllOf,
    BestOf,
    MinOf,
    MaxOf,
    SortedOf,
    SortOf,
    MapGo,
    MapOf,
    FilterGo,
    FilterOf,
    ZipGo,
    ZipOf,
    EnumerateGo,
    EnumerateOf,
    ReversedGo,
    ReversedOf,
    ReprOf,
    ReprIn,
    StrOf,
    PrintOf,
}

/// A default value of a parameter (Language Reference 8.7).
#[derive(Clone, Copy, Debug, PartialEq, Eq)]
pub enum Preset {
    None,
    False,
    Zero,
    /// The empty tuple.
    Empty,
}
