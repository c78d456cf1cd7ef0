use pt_frames::Slots;
use pt_heap::Value;

/// Where an activation stands in the code of its block.
#[derive(Clone, Copy, Debug, PartialEq, Eq)]
pub enum Standing {
    /// The instruction at its place is next.
    AtPlace,
    /// A jump has landed at its place, and nothing has begun there.
    Landed,
    /// The delegation at its place is next, to which this exception is sent.
    ThrownTo(Value),
    /// This exception goes on, which was held or no handler took.
    Reraises(Value),
    /// Its block returns this value.
    Returns(Value),
    /// This exception leaves its block.
    Raises(Value),
}

impl Standing {
    ghost use Rattle.std.specs.Prelude.{◌≡◌};
    ghost use Rattle.pt_purposes.specs.Seen.{active_at};

    /// The exception that is active there (Language Reference 7.8, 8.4).
    pub fn active(&self, slots: &Slots) -> Option<Value>
        ensures { result ≡ active_at self.now slots.now }
    {
        match self {
            Standing::Returns(_) | Standing::Raises(_) => None,
            Standing::AtPlace | Standing::Landed | Standing::ThrownTo(_) | Standing::Reraises(_) =>
                slots.active(),
        }
    }
}
