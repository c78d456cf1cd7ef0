//! The session of a debugger.
ghost use Rattle.std.specs.Prelude.{◌≡◌, ◌++◌, ◌<◌, ◌≤◌, ◌↔◌, IfOk, OnOk, OnErr, IsTrue};
ghost use Rattle.pt_commands.specs.Commands.{command_on};
ghost use Rattle.pt_bdb.specs.Stops.{until_line};
ghost use Rattle.pt_sessions.specs.Sessions.{are_tried, behind_command, behind_event};
ghost use Rattle.pt_sessions.specs.Sessions.{behind_line, command_text, event_text, hit_text};
ghost use Rattle.pt_sessions.specs.Sessions.{is_asked, is_line, last_line, line_outcome};
ghost use Rattle.pt_sessions.specs.Sessions.{line_text, new_session, outcome_of, session_stops};
ghost use Rattle.pt_sessions.specs.Sessions.{told_text, until_text, with_line};

use crate::breakpoints;
use crate::going::go;
use pt_base::{Line, Memory, Seq, Text};
use pt_bdb::{Breaks, Event, EventKind, Hit, Judge, LAST_NUMBER, Stops, until_line};
use pt_commands::Command;
use pt_heap::ViewFrame;
use pt_pdb::{Answer, BreakAnswer, push_answer, push_break_answer, push_prompt, shown_line};
use std::alloc::Global;
use std::marker::Model;

/// What comes of a line of commands.
#[derive(Debug, Drop)]
pub enum Outcome {
    /// It is answered.
    Answered,
    /// The run goes on.
    Goes,
    /// The run is asked: for another line or frame, for values, or to end.
    Asks { command: Command },
}

/// The breakpoints of a session and where it stops, over the name of the script's file, and the last
/// line of commands that wasn't empty.
#[derive(Drop)]
pub struct Session {
    file: Text,
    breaks: Breaks,
    stops: Stops,
    last: Text,
}

impl Model for Session {
    ghost use Rattle.pt_sessions.specs.Sessions as sessions;

    ghost Value = { sessions.Session };

    ghost view = { λ s. record { file = s.file; breaks = s.breaks; stops = s.stops; last = s.last } };
}

/// The line of commands that a line asks for: itself, or the last one where it is empty.
fn last_line<'a>(line: &'a str, last: &'a str) -> &'a str
    ensures { result.now ≡ last_line line.now last.now }
{
    if line.is_empty() { last } else { line }
}

/// Whether a command asks the run.
fn is_asked(command: &Command) -> bool
    ensures { result ≡ is_asked command.now }
{
    matches!(
        command,
        Command::Jump { .. }
            | Command::Up
            | Command::Down
            | Command::Where
            | Command::Args
            | Command::Print { .. }
            | Command::Quit
    )
}

/// Tells of `until` that the line isn't behind the current one.
fn push_until(
    alloc: Global,
    out: &mut Vec<u8>,
    current: Line,
    asked: Option<Line>,
) -> Result<(), Memory>
    ensures { OnOk result (out.new.items
        ≡ out.old.items ++ until_text asked (until_line current asked)) }
{
    match (asked, until_line(current, asked)) {
        (Some(line), None) => push_answer(alloc, out, Answer::NotAfter { line }),
        _ => Ok(()),
    }
}

/// Writes what is told of a command that is on no breakpoint, and of one that the run doesn't go on
/// with.
fn push_told(
    alloc: Global,
    out: &mut Vec<u8>,
    last: &str,
    frame: &ViewFrame,
    command: &Command,
) -> Result<(), Memory>
    ensures { OnOk result (out.new.items
        ≡ out.old.items ++ told_text last.now frame.now command.now) }
{
    match command {
        Command::Until { line } => push_until(alloc, out, frame.line, *line),
        Command::Repeat | Command::Bad => push_answer(alloc, out, Answer::Unknown { line: last }),
        _ => Ok(()),
    }
}

/// Tells that a temporary breakpoint was deleted, where one was.
fn push_hit(
    alloc: Global,
    out: &mut Vec<u8>,
    file: &str,
    line: Line,
    hit: Option<Hit>,
) -> Result<(), Memory>
    ensures { OnOk result (out.new.items ≡ out.old.items ++ hit_text file.now line hit) }
{
    match hit {
        Some(hit) if hit.removed => {
            let number = hit.number;
            push_break_answer(alloc, out, file, BreakAnswer::Deleted { number, line })
        }
        _ => Ok(()),
    }
}

fn is_line(kind: EventKind) -> bool
    ensures { result ≡ is_line kind }
{
    matches!(kind, EventKind::Line)
}

impl Session {
    /// A session over the name of the script's file, where acts stand on these lines. It stops at the
    /// first event.
    pub fn new(alloc: Global, file: Text, lines: Seq<Line>) -> Session
        ensures { result ≡ new_session file lines }
    {
        Session {
            file,
            breaks: Breaks::new(alloc, lines),
            stops: Stops::new(),
            last: Text::new(alloc),
        }
    }

    /// Whether the greatest number has been given to a breakpoint, so that no line of commands can be
    /// taken any more.
    pub fn is_full(&self) -> bool
        ensures { IsTrue result ↔ (LAST_NUMBER ≤ self.now.breaks.last) }
    {
        self.breaks.is_full()
    }

    /// The command that a line asks for, itself or the last that wasn't empty.
    fn read(&mut self, alloc: Global, line: &str) -> Result<Command, Memory>
        ensures command { IfOk result (λ c. c ≡ command_on (with_line line.now self.old).last) }
        ensures ok { OnOk result (self.new ≡ with_line line.now self.old) }
        ensures err { OnErr result (self.new ≡ self.old) }
    {
        let asked = last_line(line, self.last.as_str());
        let last = Text::from_str(alloc, asked)?;
        let command = Command::parse(alloc, asked)?;
        self.last = last;
        Ok(command)
    }

    /// Does a command at an event, with a frame chosen.
    #[tactic(auto, using(crate::proofs::SessionLemmas::two_more))]
    fn answer(
        &mut self,
        alloc: Global,
        out: &mut Vec<u8>,
        frame: &ViewFrame,
        event: &Event,
        command: Command,
    ) -> Result<Outcome, Memory>
        requires { self.old.breaks.last < LAST_NUMBER }
        ensures outcome { IfOk result (λ o. o ≡ outcome_of frame.now command) }
        ensures text { OnOk result (out.new.items
            ≡ out.old.items ++ command_text self.old frame.now command) }
        ensures new { OnOk result (self.new
            ≡ behind_command frame.now event.now command self.old) }
    {
        if is_asked(&command) {
            return Ok(Outcome::Asks { command });
        }
        if go(&mut self.stops, frame, event, &command) {
            return Ok(Outcome::Goes);
        }
        push_told(alloc, out, self.last.as_str(), frame, &command)?;
        breakpoints::take(alloc, out, self.file.as_str(), &mut self.breaks, command)?;
        Ok(Outcome::Answered)
    }

    /// Takes a line of commands at an event, with a frame chosen: writes it behind the prompt, does
    /// what it asks for as far as no run is asked, and writes the answer.
    ///
    /// # Errors
    ///
    /// `Memory` for want of it. The line may have been taken in part then.
    pub fn take(
        &mut self,
        alloc: Global,
        out: &mut Vec<u8>,
        line: &[u8],
        frame: &ViewFrame,
        event: &Event,
    ) -> Result<Outcome, Memory>
        requires { self.old.breaks.last < LAST_NUMBER }
        ensures outcome { IfOk result (λ o. o ≡ line_outcome frame.now line.now self.old) }
        ensures text { OnOk result (out.new.items
            ≡ out.old.items ++ line_text frame.now line.now self.old) }
        ensures new { OnOk result (self.new ≡ behind_line frame.now line.now event.now self.old) }
    {
        let line = shown_line(line);
        push_prompt(out, line)?;
        let command = self.read(alloc, line)?;
        self.answer(alloc, out, frame, event, command)
    }

    /// Whether the breakpoints are tried at an event.
    fn are_tried(&self, event: &Event) -> bool
        ensures { result ≡ are_tried event.now self.now }
    {
        is_line(event.kind) && !self.stops.here(event)
    }

    /// Whether the session stops at an event where commands are left: by the last command, or at a
    /// line by a breakpoint. A deletion is written.
    ///
    /// # Errors
    ///
    /// `Memory` for want of it. The breakpoints may have had their turns then.
    #[tactic(auto, using(crate::proofs::SessionLemmas::tried_at))]
    pub fn stops_at<J: Judge>(
        &mut self,
        alloc: Global,
        out: &mut Vec<u8>,
        event: &Event,
        judge: &mut J,
    ) -> Result<bool, Memory>
        ensures stops { IfOk result (λ stops.
            stops ≡ session_stops (J.verdict (J.held judge.old)) event.now self.old) }
        ensures text { OnOk result (out.new.items
            ≡ out.old.items ++ event_text (J.verdict (J.held judge.old)) event.now self.old) }
        ensures new { OnOk result (self.new
            ≡ behind_event (J.verdict (J.held judge.old)) event.now self.old) }
        ensures kept { J.held judge.new ≡ J.held judge.old }
    {
        if !self.are_tried(event) {
            return Ok(self.stops.here(event));
        }
        let hit = self.breaks.effective(event.line, judge)?;
        push_hit(alloc, out, self.file.as_str(), event.line, hit)?;
        Ok(hit.is_some())
    }
}
