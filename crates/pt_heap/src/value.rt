use pt_base::ObjId;

/// A value of a run: data, or the place of an object in the heap (Language Reference 3.1, 3.2).
#[derive(Clone, Copy, Debug, PartialEq, Eq)]
pub enum Value {
    None,
    Bool(bool),
    Int(i128),
    Ellipsis,
    NotImplemented,
    Obj(ObjId),
}
