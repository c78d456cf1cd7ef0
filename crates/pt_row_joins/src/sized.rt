//! The places that have sizes.
ghost use Rattle.std.specs.Prelude.{◌≡◌, length, List, Option, ℕ, IfOk};
ghost use Rattle.pt_row_joins.specs.Rows.{AreSizedPlaces, rank};

use pt_base::Memory;
use std::alloc::Global;

/// The places that have sizes, and how many of them lie before each place.
#[derive(Debug, Drop)]
pub struct SizedPlaces {
    pub places: Vec<usize>,
    pub before: Vec<usize>,
}

impl SizedPlaces {
    pub fn make(alloc: Global, sizes: &[Option<u64>]) -> Result<SizedPlaces, Memory>
        ensures { IfOk result (λ reached. AreSizedPlaces sizes.now reached) }
    {
        let mut places = Vec::new(alloc);
        let mut before = Vec::new(alloc);
        for at in 0..sizes.len() {
            before.push(places.len())?;
            if sizes[at].is_some() {
                places.push(at)?;
            }
        }
        Ok(SizedPlaces { places, before })
    }

    /// How many of them lie before a place.
    pub fn rank(&self, at: usize) -> usize
        ensures { (sizes : List (Option ℕ)) → AreSizedPlaces sizes self.now → result ≡ rank sizes at }
    {
        match self.before.get(at) {
            Some(rank) => *rank,
            None => self.places.len(),
        }
    }
}
