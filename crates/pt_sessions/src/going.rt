//! How a run goes on.
ghost use Rattle.std.specs.Prelude.{◌≡◌, is_some, unwrap_or};
ghost use Rattle.std.specs.Option.{option_map};
ghost use Rattle.pt_bdb.specs.Stops.{until_data, until_line};
ghost use Rattle.pt_sessions.specs.Going.{data_at, data_behind, data_by};

use pt_base::Line;
use pt_bdb::{Event, EventKind, Stops, until_line};
use pt_commands::Command;
use pt_heap::ViewFrame;

/// Where the run stops behind the commands at an event.
fn leave(stops: &mut Stops, event: &Event)
    ensures { stops.new ≡ data_at event.now.kind event.now stops.old }
{
    match event.kind {
        EventKind::Return => stops.returned(event.frame),
        EventKind::Call | EventKind::Line | EventKind::Exception => {}
    }
}

/// Where the run stops by `until`, and whether it goes on by it.
fn until(stops: &mut Stops, frame: &ViewFrame, asked: Option<Line>) -> bool
    ensures goes { result ≡ is_some (until_line frame.now.line asked) }
    ensures stops { stops.new ≡ unwrap_or
        (option_map (until_data frame.now.frame) (until_line frame.now.line asked)) stops.old }
{
    match until_line(frame.line, asked) {
        Some(line) => {
            stops.until(frame.frame, line);
            true
        }
        None => false,
    }
}

/// Where the run stops by a command at a frame, and whether it goes on by it.
fn steer(stops: &mut Stops, frame: &ViewFrame, command: &Command) -> bool
    ensures goes { result ≡ is_some (data_by frame.now command.now) }
    ensures stops { stops.new ≡ unwrap_or (data_by frame.now command.now) stops.old }
{
    match command {
        Command::Step => {
            stops.step();
            true
        }
        Command::Next => {
            stops.next(frame.frame);
            true
        }
        Command::Until { line } => until(stops, frame, *line),
        Command::Return => {
            stops.ret(frame.frame, frame.caller, frame.generator);
            true
        }
        Command::Continue => {
            stops.cont();
            true
        }
        _ => false,
    }
}

/// Where the run stops by a command at a frame and an event, and whether it goes on by it.
pub fn go(stops: &mut Stops, frame: &ViewFrame, event: &Event, command: &Command) -> bool
    ensures goes { result ≡ is_some (data_by frame.now command.now) }
    ensures stops { stops.new ≡ data_behind event.now (data_by frame.now command.now) stops.old }
{
    let goes = steer(stops, frame, command);
    if goes {
        leave(stops, event);
    }
    goes
}
