use pt_asking::Question;
use pt_gen::Gens;
use pt_heap::Value;
use pt_monitor::Tools;
use pt_openers::Openers;
use pt_pendings::{Pending, Telling};
use pt_purposes::{Course, Opener, Running, Standing};
use pt_settrace::Hooks;
use pt_transfers::{Machine as CodeMachine, MachineEnd};

/// What waits in the newest activation while events are told: where it stands, which exception was
/// active in it as the first of them came, and what goes on behind the last.
#[derive(Clone, Copy)]
pub struct Waiting {
    pub standing: Standing,
    pub active: Option<Value>,
    pub pending: Pending,
}

/// What is going on in the newest activation.
#[derive(Drop)]
pub enum Phase {
    /// The next turn of its code begins.
    Turning {
        standing: Standing,
    },
    /// An event is told. Where the activation stands meanwhile, and which exception was active in
    /// it as the event came.
    Telling {
        standing: Standing,
        active: Option<Value>,
        telling: Telling,
    },
}

/// A run of code between two turns.
#[derive(Drop)]
pub struct Machine {
    /// The newest activation, with the cells, names and objects of the run and the units taken: what
    /// instructions work on. Between turns it stands at its place, and no activation waits there.
    pub code: CodeMachine,
    /// What a run keeps of the newest activation beside that.
    pub course: Course,
    pub phase: Phase,
    /// The activations that wait.
    pub openers: Openers<Opener>,
    pub generators: Gens<Running>,
    pub hooks: Hooks,
    pub tools: Tools,
}

/// What a turn comes to.
#[derive(Clone, Copy)]
pub enum Turn {
    Goes,
    /// A debugger is asked, at the event that is told.
    Asks(Question),
    Ends(MachineEnd),
    /// The code or its slots lack what the turn needs.
    Lacks,
}
