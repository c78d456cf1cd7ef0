//! Places of objects that each run starts with.

use pt_base::ObjId;

/// The place of the class that each class of a script has behind all its bases.
pub const OBJECT: ObjId = ObjId(0);

/// The places of the classes of exceptions that a run makes.
pub const BASE_EXCEPTION: ObjId = ObjId(26);

pub const SYSTEM_EXIT: ObjId = ObjId(27);

pub const GENERATOR_EXIT: ObjId = ObjId(28);

pub const ASSERTION_ERROR: ObjId = ObjId(32);

pub const ATTRIBUTE_ERROR: ObjId = ObjId(33);

pub const IMPORT_ERROR: ObjId = ObjId(34);

pub const MODULE_NOT_FOUND_ERROR: ObjId = ObjId(35);

pub const NAME_ERROR: ObjId = ObjId(39);

pub const UNBOUND_LOCAL_ERROR: ObjId = ObjId(40);

pub const RUNTIME_ERROR: ObjId = ObjId(41);

pub const RECURSION_ERROR: ObjId = ObjId(43);

pub const STOP_ITERATION: ObjId = ObjId(44);

pub const TYPE_ERROR: ObjId = ObjId(45);

pub const VALUE_ERROR: ObjId = ObjId(46);

/// What a callback answers to switch an event off, and the first argument of a call without one
/// (Library Reference, `sys.monitoring`).
pub const DISABLE: ObjId = ObjId(75);

pub const MISSING: ObjId = ObjId(76);

/// The place of the module `sys`.
pub const SYS: ObjId = ObjId(77);
