//! That comprehensions of a block are known by the numbers of their Nexts. Laws, without code.

mod laws;

pub use laws::a_number_is_of_one_comprehension;
