use pt_base::Memory;

/// Why a call for a tool is refused.
#[derive(Clone, Copy, Debug, PartialEq, Eq)]
pub enum ToolErr {
    /// A tool has the id already.
    InUse,
    /// Ids are 0 to 5.
    BadId,
    /// No tool has the id.
    NotInUse,
    /// A bit of the set is that of no event, or of one that a block's own set can't have; or a
    /// callback is registered for anything but one event.
    BadSet,
    /// The event has no place of its own, at which it could be switched off.
    NotLocal,
    Memory,
}

impl From<Memory> for ToolErr {
    ghost use Rattle.std.specs.Prelude.{◌≡◌};
    ghost use Rattle.pt_monitor.specs.declared.error.ToolErr.TheVariants as error;

    ghost from_gives = { λ _ e. e ≡ error.Memory };

    fn from(_: Memory) -> Self {
        ToolErr::Memory
    }
}
