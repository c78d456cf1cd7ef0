//! The tools by their ids.
ghost use Rattle.std.specs.Prelude.{◌≡◌, ◌<◌, ◌∷◌, length, OnOk, OnErr};
ghost use Rattle.sem_run.specs.run.Rows.{row_at, put_at};
ghost use Rattle.sem_run.specs.run.Tools.{or_unused, has, with_callback, without_callback};
ghost use Rattle.pt_monitor.specs.Alike.{AreAlike};
ghost use Rattle.pt_monitor.specs.Events.{bit_of};
ghost use Rattle.pt_monitor.specs.Kept as kept;
ghost use Rattle.pt_monitor.specs.Kept.{is_wanted};
ghost use Rattle.pt_monitor.specs.declared.event.MonEvent.{MonEvent};

use crate::tool::Tool;
use crate::{EventSet, MonEvent};
use bitflags::Flags;
use pt_base::{BlockId, Memory, Text};
use pt_heap::Value;

/// How many tools there are.
pub fn count(tools: &[Tool]) -> usize
    ensures { result ≡ length tools.now }
{
    tools.len()
}

/// The tool with an id.
pub fn tool_at(tools: &[Tool], at: usize) -> &Tool
    requires { at < length tools.now }
    ensures { result.now ≡ or_unused (row_at at tools.now) }
{
    &tools[at]
}

/// Gives a tool a name, or takes it away.
pub fn set_name(tools: &mut [Tool], at: usize, name: Option<Text>)
    requires { at < length tools.old }
    ensures { tools.new
        ≡ put_at at (record (or_unused (row_at at tools.old)) { name = name }) tools.old }
{
    tools[at].set_name(name);
}

/// Gives a tool a set of events.
pub fn give_set(tools: &mut [Tool], at: usize, set: EventSet)
    requires { at < length tools.old }
    ensures { tools.new
        ≡ put_at at (record (or_unused (row_at at tools.old)) { set = set.0 }) tools.old }
{
    tools[at].give_set(set);
}

/// Gives a tool a set of events for a block.
pub fn give_local(
    tools: &mut [Tool],
    at: usize,
    block: BlockId,
    set: EventSet,
) -> Result<(), Memory>
    requires { at < length tools.old }
    ensures ok { OnOk result (AreAlike tools.new (put_at at (record (or_unused (row_at at tools.old)) {
      local = record { block = kept.block block.0; set = set.0 } ∷ (or_unused (row_at at tools.old)).local;
    })
        tools.old)) }
    ensures err { OnErr result (tools.new ≡ tools.old) }
{
    tools[at].give_local(block, set)?;
    Ok(())
}

/// Registers a callback of a tool, or takes it away.
pub fn register(
    tools: &mut [Tool],
    at: usize,
    event: MonEvent,
    f: Option<Value>,
) -> Result<(), Memory>
    requires { at < length tools.old }
    ensures ok { OnOk result (AreAlike tools.new (put_at at (record (or_unused (row_at at tools.old)) {
      callbacks = with_callback (bit_of event) f (or_unused (row_at at tools.old)).callbacks;
    })
        tools.old)) }
    ensures err { OnErr result (tools.new ≡ tools.old) }
{
    tools[at].register(event, f)?;
    Ok(())
}

/// Takes a callback of a tool away.
pub fn take_away(tools: &mut [Tool], at: usize, event: MonEvent)
    ensures { AreAlike tools.new (put_at at (record (or_unused (row_at at tools.old)) {
      callbacks = without_callback (bit_of event) (or_unused (row_at at tools.old)).callbacks;
    })
        tools.old) }
{
    if at < tools.len() {
        tools[at].take_away(event);
    }
}

/// The events that can be due somewhere in a block, of whichever tool.
pub fn wanted(tools: &[Tool], block: BlockId) -> EventSet
    ensures { (e : MonEvent) → has result.0 (bit_of e)
        ≡ is_wanted (kept.block block.0) (bit_of e) tools.now }
{
    let mut wanted = EventSet(0);
    for tool in tools {
        wanted.insert(tool.wanted(block));
    }
    wanted
}
