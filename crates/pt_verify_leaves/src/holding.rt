//! Where Leaves go that slots hold.
ghost use Rattle.std.specs.Prelude.{◌≡◌, ◌++◌, List, IfOk};
ghost use Rattle.std.specs.List.{flat_map};
ghost use Rattle.pt_ranges.specs.declared.handlers.Handler.{Handler};
ghost use Rattle.pt_sizes.specs.Flow.{entry};
ghost use Rattle.pt_verify_leaves.specs.Onto.{Knows, onto, with_number};

use crate::listing::{add, class_at, pc_of, taken_into};
use pt_base::{Memory, Pc};
use pt_closure::Follows;
use pt_instr::Instr;
use pt_places::Places;
use pt_takers::Takers;

/// The places in each class, and what is asked of them.
#[derive(Drop)]
pub struct Holding<'a> {
    pub places: &'a Places,
    pub takers: &'a Takers,
    pub classes: &'a [Option<usize>],
    pub members: Vec<Vec<usize>>,
}

/// The class of the slot into which a Leave goes that the topmost slot of a place holds.
fn onto(
    places: &Places,
    takers: &Takers,
    classes: &[Option<usize>],
    pc: Pc,
    target: Pc,
) -> Option<usize>
    ensures { (rows : List Handler) → Knows places.now rows takers.now
        → result ≡ onto rows classes.now target.0 pc.0 (entry places.now pc.0) }
{
    let Some(place) = places.at(pc) else {
        return None;
    };
    match place.instr {
        Instr::EndFinally => taken_into(takers, classes, pc, target),
        Instr::Exit => class_at(classes, place.next.0 as usize),
        _ => None,
    }
}

impl<'a> Follows for Holding<'a> {
    ghost use Rattle.pt_verify_leaves.specs.Holding.{TellsNext};

    ghost tells = { TellsNext };

    fn looks(&self, pair: (usize, usize)) -> usize {
        let (class, _) = pair;
        match self.members.get(class) {
            None => 0,
            Some(members) => members.len(),
        }
    }

    fn add_next(&self, pair: (usize, usize), work: &mut Vec<(usize, usize)>) -> Result<(), Memory> {
        let (class, target) = pair;
        if class >= self.members.len() {
            return Ok(());
        }
        add_all(
            work,
            self.places,
            self.takers,
            self.classes,
            &self.members[class],
            target,
        )
    }
}

/// Adds the classes into which a Leave goes from the topmost slots of places.
fn add_all(
    work: &mut Vec<(usize, usize)>,
    places: &Places,
    takers: &Takers,
    classes: &[Option<usize>],
    members: &[usize],
    target: usize,
) -> Result<(), Memory>
    ensures { IfOk result (λ _. (rows : List Handler) → Knows places.now rows takers.now
        → work.new.items ≡ work.old.items
        ++ flat_map (λ pc. with_number target (onto rows classes.now target pc (entry places.now pc)))
        members.now) }
{
    let to = pc_of(target)?;
    for number in 0..members.len() {
        let at = members[number];
        add(work, onto(places, takers, classes, pc_of(at)?, to), target)?;
    }
    Ok(())
}
