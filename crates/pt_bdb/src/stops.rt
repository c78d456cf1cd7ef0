//! Where a run stops by the last command.
ghost use Rattle.std.specs.Prelude.{◌≡◌};
ghost use Rattle.pt_bdb.specs.Stops.{counts, is_any, is_at, is_module, is_one, reaches, rule};
ghost use Rattle.pt_bdb.specs.Stops.{caller_frame, continue_data, line_behind, next_data};
ghost use Rattle.pt_bdb.specs.Stops.{return_data, returned, step_data, stops_at, until_data};
ghost use Rattle.pt_bdb.specs.Stops.{until_line};

use crate::{Event, EventKind};
use pt_base::{BlockId, FrameNo, Line};
use std::marker::Model;

/// The module's block.
const MODULE: BlockId = BlockId(0);

/// At which frames a run may stop.
#[derive(Clone, Copy, Debug, PartialEq, Eq)]
pub enum StopFrame {
    Any,
    One(FrameNo),
    Never,
}

/// Where a run stops: at the stop frame from the stop line on, and at the return of the return frame.
#[derive(Clone, Copy, Debug, PartialEq, Eq)]
pub struct StopData {
    pub frame: StopFrame,
    pub line: Option<Line>,
    pub return_frame: Option<FrameNo>,
}

impl StopFrame {
    fn is_any(&self) -> bool
        ensures { result ≡ is_any self.now }
    {
        matches!(self, StopFrame::Any)
    }

    fn is_one(&self, frame: FrameNo) -> bool
        ensures { result ≡ is_one frame self.now }
    {
        match self {
            StopFrame::One(one) => *one == frame,
            _ => false,
        }
    }
}

/// Whether the line is at least the stop line, where there is one.
fn reaches(line: Line, stop: Option<Line>) -> bool
    ensures { result ≡ reaches line stop }
{
    match stop {
        Some(stop) => stop.0 <= line.0,
        None => false,
    }
}

/// Whether there is such a frame, and it is this one.
fn is_at(frame: FrameNo, other: Option<FrameNo>) -> bool
    ensures { result ≡ is_at frame other }
{
    match other {
        Some(other) => other == frame,
        None => false,
    }
}

/// The stop frame of `return`.
fn caller_frame(caller: Option<FrameNo>) -> StopFrame
    ensures { result ≡ caller_frame caller }
{
    match caller {
        Some(caller) => StopFrame::One(caller),
        None => StopFrame::Never,
    }
}

fn is_module(event: &Event) -> bool
    ensures { result ≡ is_module event.now }
{
    event.block == MODULE
}

impl StopData {
    fn rule(&self, event: &Event) -> bool
        ensures { result ≡ rule self.now event.now.frame event.now.line }
    {
        self.frame.is_any() || self.frame.is_one(event.frame) && reaches(event.line, self.line)
    }

    fn counts(&self, event: &Event) -> bool
        ensures { result ≡ counts self.now event.now }
    {
        !event.generator || self.frame.is_any()
    }

    /// Whether a run stops at an event.
    pub fn stops_at(&self, event: &Event) -> bool
        ensures { result ≡ stops_at self.now event.now }
    {
        match event.kind {
            EventKind::Call => self.counts(event) && !is_module(event) && self.rule(event),
            EventKind::Return => {
                self.counts(event) && (self.rule(event) || is_at(event.frame, self.return_frame))
            }
            EventKind::Line | EventKind::Exception => self.rule(event),
        }
    }
}

/// The line that `until` without a number goes to: the next, or the greatest.
pub fn line_behind(line: Line) -> Line
    ensures { result ≡ line_behind line }
{
    Line(line.0.saturating_add(1))
}

/// The line that `until` goes to from the current one: the asked one, where that is behind it, or the
/// next where none is asked.
pub fn until_line(current: Line, asked: Option<Line>) -> Option<Line>
    ensures { result ≡ until_line current asked }
{
    match asked {
        Some(line) => { if current.0 < line.0 { Some(line) } else { None } }
        None => Some(line_behind(current)),
    }
}

/// Where a run stops by the last command (Library Reference, "bdb"). Contracts see the stop data. No
/// call takes memory.
#[derive(Debug, Drop)]
pub struct Stops {
    data: StopData,
}

impl Model for Stops {
    ghost use Rattle.pt_bdb.specs.declared.stops.StopData.{StopData};

    ghost Value = { StopData };

    ghost view = { λ s. s.data };
}

impl Stops {
    /// As behind `step`.
    pub fn new() -> Stops
        ensures { result ≡ step_data }
    {
        Stops {
            data: StopData {
                frame: StopFrame::Any,
                line: None,
                return_frame: None,
            },
        }
    }

    /// At the next event.
    pub fn step(&mut self)
        ensures { self.new ≡ step_data }
    {
        self.data = StopData {
            frame: StopFrame::Any,
            line: None,
            return_frame: None,
        };
    }

    /// At the next event of this frame.
    pub fn next(&mut self, frame: FrameNo)
        ensures { self.new ≡ next_data frame }
    {
        self.data = StopData {
            frame: StopFrame::One(frame),
            line: Some(Line(0)),
            return_frame: None,
        };
    }

    /// At this line of this frame or behind it, or at the frame's return.
    pub fn until(&mut self, frame: FrameNo, line: Line)
        ensures { self.new ≡ until_data frame line }
    {
        self.data = StopData {
            frame: StopFrame::One(frame),
            line: Some(line),
            return_frame: Some(frame),
        };
    }

    /// At the return of this frame, or at the next event of its caller, which the module lacks. In a
    /// generator's frame nowhere.
    pub fn ret(&mut self, frame: FrameNo, caller: Option<FrameNo>, generator: bool)
        ensures { self.new ≡ return_data frame caller generator }
    {
        self.data = if generator {
            StopData {
                frame: StopFrame::One(frame),
                line: None,
                return_frame: None,
            }
        } else {
            StopData {
                frame: caller_frame(caller),
                line: Some(Line(0)),
                return_frame: Some(frame),
            }
        };
    }

    /// Nowhere.
    pub fn cont(&mut self)
        ensures { self.new ≡ continue_data }
    {
        self.data = StopData {
            frame: StopFrame::Never,
            line: None,
            return_frame: None,
        };
    }

    /// Behind the commands of a stop at the return of this frame: where the run waits for this frame,
    /// it stops at the next event.
    pub fn returned(&mut self, frame: FrameNo)
        ensures { self.new ≡ returned frame self.old }
    {
        if self.data.frame.is_one(frame) && self.data.line.is_some() {
            self.step();
        }
    }

    /// Whether the run stops at an event, breakpoints left aside.
    pub fn here(&self, event: &Event) -> bool
        ensures { result ≡ stops_at self.now event.now }
    {
        self.data.stops_at(event)
    }
}
