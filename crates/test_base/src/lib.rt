//! Tests of the base types, of the tables over the places of code and of lists of kinds and where they go.
#![tactic(auto)]

#[cfg(test)]
mod flows;
#[cfg(test)]
mod lists;
#[cfg(test)]
mod objects;
#[cfg(test)]
mod ranges;
