//! How a block fails, and why it is refused.

/// How a block fails up to a place by the kinds of its slots, aside from Leaves and handler rows.
#[derive(Clone, Copy, Debug)]
pub struct KindFailures {
    /// A place gets two lists, or an instruction finds another kind or may not stand there.
    pub clash: bool,
    /// An instruction goes on to where none stands.
    pub strays: bool,
}

/// How a block fails up to a place by what its Leaves leave to their targets.
#[derive(Clone, Copy, Debug)]
pub struct LeaveFailures {
    /// One leaves fewer slots than its target has.
    pub lacks: bool,
    /// One leaves other kinds than its target has.
    pub clash: bool,
}

/// How a block fails up to a place, as far as its refusal there depends on it. Table rows are counted
/// through marks, handlers and starts.
#[derive(Clone, Copy, Debug)]
pub enum Failures {
    /// Two numbers of slots meet at a place.
    Meet,
    /// The least handler row that is to leave too many slots, and the least one before it under which
    /// slots of two kinds would stay.
    TooDeep {
        row: usize,
        cuts: Option<usize>,
    },
    /// An instruction has too few slots. The least row under which slots of two kinds would stay.
    TooFew {
        cuts: Option<usize>,
    },
    /// The numbers of slots agree. The least row under which slots of two kinds would stay.
    Cut(usize),
    /// The numbers of slots agree, and under no row would slots of two kinds stay.
    Agree {
        kinds: KindFailures,
        leaves: LeaveFailures,
    },
}

/// Why a block is refused, and where.
#[derive(Clone, Copy, Debug, PartialEq, Eq)]
pub enum Refusal {
    Stack(usize),
    Kind(usize),
    Target(usize),
    Table(usize),
    SilentLoop(usize),
    Depth,
}
