ghost use Rattle.std.specs.Prelude.{◌≡◌, OnOk, OnErr};
ghost use Rattle.sem_run.specs.run.Tools as run;
ghost use Rattle.sem_run.specs.run.Tools.{no_tools, tool_call, has, wants};
ghost use Rattle.pt_settrace.specs.Tracing.{unless_none};
ghost use Rattle.pt_monitor.specs.Alike.{ToolsAlike};
ghost use Rattle.pt_monitor.specs.Answers.{UnlessMemory, reply, nothing, set_told, name_told};
ghost use Rattle.pt_monitor.specs.Answers.{callback_told, tool_place, Disables};
ghost use Rattle.pt_monitor.specs.Events.{bit_of};
ghost use Rattle.pt_monitor.specs.Kept as kept;
ghost use Rattle.pt_monitor.specs.Kept.{is_wanted};
ghost use Rattle.pt_monitor.specs.declared.event.MonEvent.{MonEvent};

use crate::place::{self, Place};
use crate::tool::Tool;
use crate::{EventSet, MonEvent, ToolErr, rows};
use indexmap::IndexSet;
use pt_base::{ActNo, BlockId, Text};
use pt_heap::Value;
use pt_settrace::{or_none, unless_none};
use std::alloc::Global;
use std::marker::Model;

/// How many tools there are.
const TOOLS: usize = 6;

/// The place of a tool among them, by its id.
fn tool_place(id: i128) -> Option<usize>
    ensures { result ≡ tool_place id }
{
    let Ok(at) = usize::try_from(id) else {
        return None;
    };
    if at < TOOLS { Some(at) } else { None }
}

/// The tools of a run, by their ids 0 to 5, and where their events are switched off. Contracts see
/// them as a run does; what is alike answers alike.
#[derive(Drop)]
pub struct Tools {
    tools: [Tool; TOOLS],
    off: IndexSet<Place>,
}

impl Model for Tools {
    ghost use Rattle.pt_heap.specs.declared.value.Value as values;
    ghost use Rattle.sem_run.specs.run.Tools as of_tools;
    ghost use Rattle.pt_monitor.specs.Kept.{locations};

    ghost Value = { of_tools.Tools values.Value };

    ghost view = { λ t. record { tools = t.tools; off = locations t.off.keys } };
}

impl Tools {
    /// No tool. It takes no memory until something is set.
    pub fn new(alloc: Global) -> Tools
        ensures { result ≡ no_tools }
    {
        Tools {
            tools: [
                Tool::new(alloc),
                Tool::new(alloc),
                Tool::new(alloc),
                Tool::new(alloc),
                Tool::new(alloc),
                Tool::new(alloc),
            ],
            off: IndexSet::new(alloc),
        }
    }

    /// Takes an id for a tool with a name (`use_tool_id`).
    ///
    /// # Errors
    ///
    /// `BadId` where the id isn't one of 0 to 5, `InUse` where a tool has it. All is as before then.
    pub fn use_id(&mut self, id: i128, name: Text) -> Result<(), ToolErr>
        ensures answer { result ≡ reply nothing (tool_call (run.use_id id name) self.old).0 }
        ensures new { self.new ≡ (tool_call (run.use_id id name) self.old).1 }
    {
        let Some(at) = tool_place(id) else {
            return Err(ToolErr::BadId);
        };
        if rows::tool_at(&self.tools, at).is_in_use() {
            return Err(ToolErr::InUse);
        }
        rows::set_name(&mut self.tools, at, Some(name));
        Ok(())
    }

    /// Gives an id back (`free_tool_id`). The tool's sets of events and callbacks stay.
    ///
    /// # Errors
    ///
    /// `BadId` where the id isn't one of 0 to 5. All is as before then.
    pub fn free_id(&mut self, id: i128) -> Result<(), ToolErr>
        ensures answer { result ≡ reply nothing (tool_call (run.free_id id) self.old).0 }
        ensures new { self.new ≡ (tool_call (run.free_id id) self.old).1 }
    {
        let Some(at) = tool_place(id) else {
            return Err(ToolErr::BadId);
        };
        rows::set_name(&mut self.tools, at, None);
        Ok(())
    }

    /// The name of the tool that has an id, if one has (`get_tool`).
    ///
    /// # Errors
    ///
    /// `BadId` where the id isn't one of 0 to 5; `Memory` for want of it.
    pub fn name_of(&self, alloc: Global, id: i128) -> Result<Option<Text>, ToolErr>
        ensures { UnlessMemory result (result
            ≡ reply name_told (tool_call (run.name_of id) self.now).0) }
    {
        let Some(at) = tool_place(id) else {
            return Err(ToolErr::BadId);
        };
        Ok(rows::tool_at(&self.tools, at).name(alloc)?)
    }

    /// The bits of a tool's set of events (`get_events`).
    ///
    /// # Errors
    ///
    /// `BadId` where the id isn't one of 0 to 5.
    pub fn get(&self, id: i128) -> Result<u32, ToolErr>
        ensures { result ≡ reply set_told (tool_call (run.set_of id) self.now).0 }
    {
        let Some(at) = tool_place(id) else {
            return Err(ToolErr::BadId);
        };
        Ok(rows::tool_at(&self.tools, at).set().0)
    }

    /// The bits of a tool's set of events for a block (`get_local_events`).
    ///
    /// # Errors
    ///
    /// `BadId` where the id isn't one of 0 to 5.
    pub fn get_local(&self, id: i128, block: BlockId) -> Result<u32, ToolErr>
        ensures { result
            ≡ reply set_told (tool_call (run.local_set_of id (kept.block block.0)) self.now).0 }
    {
        let Some(at) = tool_place(id) else {
            return Err(ToolErr::BadId);
        };
        Ok(rows::tool_at(&self.tools, at).local(block).0)
    }

    /// Gives a tool a set of events (`set_events`).
    ///
    /// # Errors
    ///
    /// The first of these, and all is as before: `BadId` where the id isn't one of 0 to 5, `NotInUse`
    /// where no tool has it, `BadSet` where a bit is that of no event.
    pub fn set(&mut self, id: i128, bits: i128) -> Result<(), ToolErr>
        ensures answer { result ≡ reply nothing (tool_call (run.give_set id bits) self.old).0 }
        ensures new { self.new ≡ (tool_call (run.give_set id bits) self.old).1 }
    {
        let Some(at) = tool_place(id) else {
            return Err(ToolErr::BadId);
        };
        if !rows::tool_at(&self.tools, at).is_in_use() {
            return Err(ToolErr::NotInUse);
        }
        let Some(set) = EventSet::listed(bits) else {
            return Err(ToolErr::BadSet);
        };
        rows::give_set(&mut self.tools, at, set);
        Ok(())
    }

    /// Gives a tool a set of events for a block (`set_local_events`).
    ///
    /// # Errors
    ///
    /// The first of these, and all is as before: `BadId` where the id isn't one of 0 to 5, `NotInUse`
    /// where no tool has it, `BadSet` where a bit is that of no event or of one without a place of its
    /// own; `Memory` for want of it.
    pub fn set_local(&mut self, id: i128, block: BlockId, bits: i128) -> Result<(), ToolErr>
        ensures answer { UnlessMemory result (result
            ≡ reply nothing (tool_call (run.give_local_set id (kept.block block.0) bits) self.old).0) }
        ensures ok { OnOk result (ToolsAlike self.new
            (tool_call (run.give_local_set id (kept.block block.0) bits) self.old).1) }
        ensures err { OnErr result (self.new ≡ self.old) }
    {
        let Some(at) = tool_place(id) else {
            return Err(ToolErr::BadId);
        };
        let asked = rows::tool_at(&self.tools, at);
        if !asked.is_in_use() {
            return Err(ToolErr::NotInUse);
        }
        let Some(set) = EventSet::listed(bits) else {
            return Err(ToolErr::BadSet);
        };
        if !set.is_local() {
            return Err(ToolErr::BadSet);
        }
        rows::give_local(&mut self.tools, at, block, set)?;
        Ok(())
    }

    /// Registers a callback of a tool for the one event of a set; None takes it away. It answers the
    /// callback before, or None (`register_callback`).
    ///
    /// # Errors
    ///
    /// The first of these, and all is as before: `BadId` where the id isn't one of 0 to 5, `BadSet`
    /// where the set isn't that of one event; `Memory` for want of it.
    pub fn register(&mut self, id: i128, event: i128, f: Value) -> Result<Value, ToolErr>
        ensures answer { UnlessMemory result (result
            ≡ reply callback_told (tool_call (run.register id event (unless_none f)) self.old).0) }
        ensures ok { OnOk result (ToolsAlike self.new
            (tool_call (run.register id event (unless_none f)) self.old).1) }
        ensures err { OnErr result (self.new ≡ self.old) }
    {
        let Some(at) = tool_place(id) else {
            return Err(ToolErr::BadId);
        };
        let Some(event) = MonEvent::of_bits(event) else {
            return Err(ToolErr::BadSet);
        };
        let before = rows::tool_at(&self.tools, at).callback(event);
        rows::register(&mut self.tools, at, event, unless_none(f))?;
        Ok(or_none(before))
    }

    /// The callback of a tool that is due at an event in a block, at an act. It takes no memory, and
    /// the same time however many places are switched off.
    pub fn due(&self, tool: u8, event: MonEvent, block: BlockId, act: ActNo) -> Option<Value>
        ensures { result ≡ wants self.now (record {
          tool = tool;
          bit = bit_of event;
          block = kept.block block.0;
          act = act.0;
        }) }
    {
        let at = usize::from(tool);
        let count = rows::count(&self.tools);
        if at >= count {
            return None;
        }
        let asked = rows::tool_at(&self.tools, at);
        if !asked.has_event(event, block) {
            return None;
        }
        let place = place_of(tool, event, block, act);
        if place::is_off_at(&self.off, place) {
            return None;
        }
        asked.callback(event)
    }

    /// Whatever a callback that answered DISABLE leads to: its event is switched off at this place.
    ///
    /// # Errors
    ///
    /// NotLocal where the event has no place of its own; then the callback is gone. Memory.
    pub fn disable(
        &mut self,
        tool: u8,
        event: MonEvent,
        block: BlockId,
        act: ActNo,
    ) -> Result<(), ToolErr>
        ensures { Disables (record {
          tool = tool;
          bit = bit_of event;
          block = kept.block block.0;
          act = act.0;
        })
            self.old self.new result }
    {
        if !event.is_local() {
            rows::take_away(&mut self.tools, usize::from(tool), event);
            return Err(ToolErr::NotLocal);
        }
        place::switch_off_at(&mut self.off, place_of(tool, event, block, act))?;
        Ok(())
    }

    /// Switches all events on again, at all places and for all tools (`restart_events`). It takes no
    /// memory.
    pub fn restart(&mut self)
        ensures { self.new ≡ (tool_call run.restart self.old).1 }
    {
        self.off.clear();
    }

    /// The events for which some tool's callback can be due in a block: what isn't among them, nobody
    /// wants to be told there. It takes no memory.
    pub fn mask(&self, block: BlockId) -> EventSet
        ensures { (e : MonEvent) → has result.0 (bit_of e)
            ≡ is_wanted (kept.block block.0) (bit_of e) self.now.tools }
    {
        rows::wanted(&self.tools, block)
    }
}

/// The place of an event of a tool.
fn place_of(tool: u8, event: MonEvent, block: BlockId, act: ActNo) -> Place
    ensures { kept.location result ≡ record {
      tool = tool;
      bit = bit_of event;
      block = kept.block block.0;
      act = act.0;
    } }
{
    Place {
        tool: u32::from(tool),
        bit: event.bit(),
        block: block.0,
        act: act.0,
    }
}
