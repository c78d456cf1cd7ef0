//! The places where events are switched off.
ghost use Rattle.std.specs.Prelude.{◌≡◌, ◌∷◌, IfOk, OnOk, OnErr};
ghost use Rattle.sem_run.specs.run.Tools.{Location, is_off};
ghost use Rattle.pt_monitor.specs.Alike.{AreOffAlike};
ghost use Rattle.pt_monitor.specs.Kept.{location, locations};

use indexmap::IndexSet;
use pt_base::Memory;

/// Where an event of a tool is switched off: a block and an act, by their numbers.
#[derive(Clone, Copy, Debug, PartialEq, Eq, Hash)]
pub struct Place {
    pub tool: u32,
    pub bit: u32,
    pub block: u32,
    pub act: u32,
}

/// Whether an event is switched off at a place.
pub fn is_off_at(places: &IndexSet<Place>, place: Place) -> bool
    ensures { result ≡ is_off (location place) (locations places.now.keys) }
{
    places.contains(&place)
}

/// Switches an event off at a place.
pub fn switch_off_at(places: &mut IndexSet<Place>, place: Place) -> Result<(), Memory>
    ensures ok { OnOk result (AreOffAlike (locations places.new.keys)
        (location place ∷ locations places.old.keys)) }
    ensures err { OnErr result (places.new.keys ≡ places.old.keys) }
{
    places.insert(place)?;
    Ok(())
}

/// A copy of places.
pub fn copy_of(places: &IndexSet<Place>) -> Result<IndexSet<Place>, Memory>
    ensures { IfOk result (λ copy. copy.keys ≡ places.now.keys) }
{
    Ok(places.clone()?)
}
