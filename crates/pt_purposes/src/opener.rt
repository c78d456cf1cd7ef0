use crate::Purpose;
use pt_base::ActNo;
use pt_frames::{Activation, Purpose as For};
use pt_heap::Value;
use pt_openers::Waits;

/// What a run keeps of an activation beside its names and slots.
#[derive(Clone, Copy, Debug, PartialEq, Eq)]
pub struct Course {
    /// The act that runs, or the last one done, and whether a jump came behind that.
    pub act: ActNo,
    pub behind_jump: bool,
    /// Whether it is a generator's.
    pub generator: bool,
}

/// An activation that isn't the newest: one that waits, or a generator's.
#[derive(Drop)]
pub struct Running {
    pub activation: Activation,
    pub course: Course,
}

/// An activation that waits for the next newer one.
#[derive(Drop)]
pub struct Opener {
    pub running: Running,
    pub purpose: Purpose,
    /// What the result of the newer one is for, and the context of an exception that arises then: the
    /// one that was active in the run as the newer one was asked for.
    pub why: For,
    pub context: Option<Value>,
    /// The generator that goes on in the newer one, if one does.
    pub generator: Option<u32>,
}

impl Waits for Opener {
    ghost use Rattle.pt_purposes.specs.Seen.{active_of, has_hook};

    ghost exception = { active_of };

    ghost is_for_hook = { has_hook };

    fn active(&self) -> Option<Value> {
        match &self.purpose {
            Purpose::Ask { .. } | Purpose::Delegation { .. } => {
                self.running.activation.slots.active()
            }
            Purpose::Hook { active, .. } => *active,
        }
    }

    fn waits_for_hook(&self) -> bool {
        match &self.purpose {
            Purpose::Ask { .. } | Purpose::Delegation { .. } => false,
            Purpose::Hook { .. } => true,
        }
    }
}
