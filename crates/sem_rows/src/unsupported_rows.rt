//! Instructions that aren't supported yet, of which the run leaves the profile of the language.

mod unsupported;

pub use unsupported::not_supported;
