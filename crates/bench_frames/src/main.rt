//! What the benchmark of frames times: slots that are pushed and popped, activations that are opened
//! and closed or taken out and opened again, names of the module, and arguments that are bound.
#![tactic(auto)]

ghost use Rattle.std.specs.Prelude.{◌<◌, length};

use pt_base::{BlockId, Memory, Seq, Text};
use pt_bind::{Args, Locals, Params, bind};
use pt_frames::{Frames, OpenErr, Place, Purpose, Slot};
use pt_heap::{Binding, Seed, Value};
use std::alloc::Global;
use std::env;
use std::process::ExitCode;

/// How many names the module has.
const NAME_COUNT: usize = 1_000;

/// Four local names without values.
fn locals(alloc: Global) -> Result<Locals, Memory> {
    let mut values = Seq::new(alloc);
    for _name in 0..4 {
        values.push(None)?;
    }
    Ok(Locals {
        values,
        star: Seq::new(alloc),
        stars: Seq::new(alloc),
        cells: Seq::new(alloc),
    })
}

fn open(alloc: Global, frames: &mut Frames, block: u32) -> Result<(), Memory> {
    let locals = locals(alloc)?;
    match frames.open(BlockId(block), false, locals, Purpose::Result) {
        Ok(_) => Ok(()),
        Err(OpenErr::TooDeep) | Err(OpenErr::Memory) => Err(Memory),
    }
}

/// Pushes so many slots and pops them.
fn slots(alloc: Global, count: u32) -> Result<bool, Memory> {
    let mut frames = Frames::new(alloc, Seed::of(b"slots"));
    open(alloc, &mut frames, 0)?;
    for number in 0..count {
        if frames.depth() == 0 {
            return Ok(false);
        }
        frames.push(Slot::Value(Value::Int(number as i128)))?;
    }
    for _turn in 0..count {
        if frames.depth() == 0 || frames.slot_count() == 0 {
            return Ok(false);
        }
        let _slot = frames.pop();
    }
    Ok(true)
}

/// Opens so many activations above another, binds a name in each, and closes it.
fn calls(alloc: Global, count: u32) -> Result<bool, Memory> {
    let mut frames = Frames::new(alloc, Seed::of(b"calls"));
    open(alloc, &mut frames, 0)?;
    for number in 0..count {
        open(alloc, &mut frames, number)?;
        if frames.depth() == 0 {
            return Ok(false);
        }
        frames.put(Place::Local(1), Some(Value::Int(number as i128)));
        frames.close();
    }
    Ok(frames.depth() == 1)
}

/// Takes an activation out and opens it again, as a generator's, so many times.
fn resumptions(alloc: Global, count: u32) -> Result<bool, Memory> {
    let mut frames = Frames::new(alloc, Seed::of(b"resumptions"));
    open(alloc, &mut frames, 0)?;
    open(alloc, &mut frames, 1)?;
    for _turn in 0..count {
        if frames.depth() == 0 {
            return Ok(false);
        }
        let (activation, why) = frames.leave();
        if frames.is_full() {
            return Ok(false);
        }
        frames.enter(activation, why)?;
    }
    Ok(frames.depth() == 2)
}

/// A module with so many names, each with its number as its value.
fn module(alloc: Global) -> Result<Frames, Memory> {
    let mut frames = Frames::new(alloc, Seed::of(b"names"));
    for number in 0..NAME_COUNT {
        let Ok(name) = format!(in alloc; "name_{number}") else {
            return Err(Memory);
        };
        let name = Text::from_str(alloc, name.as_str())?;
        frames.set_global(&name, Some(Value::Int(number as i128)))?;
    }
    Ok(frames)
}

/// Reads and binds names of the module by their places so many times.
fn names(alloc: Global, count: u32) -> Result<bool, Memory> {
    let mut frames = module(alloc)?;
    let mut found = 0u32;
    for number in 0..count {
        let place = number as usize % NAME_COUNT;
        if frames.global_at(place).is_some() {
            found = found.wrapping_add(1);
        }
        frames.set_global_at(place, Some(Value::Int(number as i128)));
    }
    Ok(found == count)
}

/// Reads names of the module by their texts so many times.
fn texts(alloc: Global, count: u32) -> Result<bool, Memory> {
    let frames = module(alloc)?;
    let mut found = 0u32;
    for number in 0..count {
        let name = if number % 2 == 0 {
            "name_17"
        } else {
            "name_999"
        };
        if frames.global(name).is_some() {
            found = found.wrapping_add(1);
        }
    }
    Ok(found == count)
}

fn parameters(alloc: Global) -> Result<Params, Memory> {
    let mut plain = Seq::new(alloc);
    plain.push(Text::from_str(alloc, "first")?)?;
    plain.push(Text::from_str(alloc, "second")?)?;
    let mut only = Seq::new(alloc);
    only.push(Text::from_str(alloc, "third")?)?;
    let mut defaults = Seq::new(alloc);
    defaults.push(Binding {
        name: Text::from_str(alloc, "second")?,
        value: Value::Int(2),
    })?;
    Ok(Params {
        plain,
        only,
        star: false,
        stars: false,
        defaults,
    })
}

fn given(alloc: Global) -> Result<Args, Memory> {
    let mut plain = Seq::new(alloc);
    plain.push(Value::Int(1))?;
    let mut named = Seq::new(alloc);
    named.push(Binding {
        name: Text::from_str(alloc, "third")?,
        value: Value::Int(3),
    })?;
    Ok(Args { plain, named })
}

/// Binds an argument without a name, one with a name and a default so many times.
fn arguments(alloc: Global, count: u32) -> Result<bool, Memory> {
    let params = parameters(alloc)?;
    let args = given(alloc)?;
    for _turn in 0..count {
        match bind(alloc, &params, &args) {
            Ok(locals) => {
                if locals.values.len() != 3 {
                    return Ok(false);
                }
            }
            Err(_) => return Ok(false),
        }
    }
    Ok(true)
}

fn number(word: Option<String>) -> u32 {
    match word {
        Some(word) => word.as_str().parse::<u32>().unwrap_or(0),
        None => 0,
    }
}

/// The words are what is timed and how often: `slots`, `calls`, `resumptions`, `names`, `texts` or
/// `arguments`.
fn main(rt: HostRuntime) -> ExitCode {
    let Ok(mut args) = env::args(&rt) else {
        return ExitCode::from(1);
    };
    let _program = args.next();
    let Some(command) = args.next() else {
        return ExitCode::from(1);
    };
    let count = number(args.next());
    let done = match command.as_str() {
        "slots" => slots(rt.alloc(), count),
        "calls" => calls(rt.alloc(), count),
        "resumptions" => resumptions(rt.alloc(), count),
        "names" => names(rt.alloc(), count),
        "texts" => texts(rt.alloc(), count),
        _ => arguments(rt.alloc(), count),
    };
    match done {
        Ok(true) => ExitCode::from(0),
        _ => ExitCode::from(1),
    }
}
