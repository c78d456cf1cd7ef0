ghost use Rattle.std.specs.Prelude.{◌≡◌, ◌≢◌, ◌++◌, ◌+◌, ◌/◌, ◌^◌, ◌≤◌, ◌<◌, Some, pos};
ghost use Rattle.std.specs.Prelude.{length, reverse, OnOk};
ghost use Rattle.std.specs.Str.{chars};
ghost use Rattle.pt_strs.specs.Answer.{within, Answers};
ghost use Rattle.pt_strs.specs.Slice.{behind, between, bound, every, place, sliced, stride_of};
ghost use Rattle.pt_strs.specs.Slice.{IsShort};

use crate::length::{LENGTH_LIMIT, char_count};
use crate::{Draft, Scan, StrErr};
use pt_base::{Memory, Text};
use std::alloc::Global;

/// Which way a slice goes, and how many characters it passes over between two.
#[derive(Clone, Copy, Debug)]
enum Stride {
    Forward(u128),
    Back(u128),
}

/// The place of an index in so many characters; below 0 it counts from the end.
fn place(count: usize, index: i128) -> usize
    ensures { result ≡ place count index }
{
    let distance = index.unsigned_abs();
    if index < 0 {
        return (count as u128).saturating_sub(distance) as usize;
    }
    distance.min(count as u128) as usize
}

/// The place behind that of an index.
fn behind(count: usize, index: i128) -> usize
    ensures { result ≡ behind count index }
{
    let distance = index.unsigned_abs();
    if index < 0 {
        return (count as u128).saturating_sub(distance - 1) as usize;
    }
    (distance + 1).min(count as u128) as usize
}

/// The place of an index that may be left out.
fn place_or(count: usize, index: Option<i128>, default: usize) -> usize
    ensures { result ≡ bound (place count) default index }
{
    match index {
        Some(index) => place(count, index),
        None => default,
    }
}

/// The place behind that of an index that may be left out.
fn behind_or(count: usize, index: Option<i128>, default: usize) -> usize
    ensures { result ≡ bound (behind count) default index }
{
    match index {
        Some(index) => behind(count, index),
        None => default,
    }
}

/// The characters of a text from one place to another.
fn middle(text: &str, count: usize, from: usize, to: usize) -> Scan<'_>
    requires count { count ≡ length (chars text.now) }
    requires within { to ≤ count }
    ensures { result ≡ between from to (chars text.now) }
{
    let mut scan = Scan::new(text);
    scan.skip_back(count - to);
    scan.skip(from);
    scan
}

/// How many characters a step picks of so many.
fn picked_len(count: usize, between: u128) -> u128
    requires { between < 2 ^ 127 }
    ensures { result ≡ (count + between) / (between + 1) }
{
    (count as u128 + between) / (between + 1)
}

/// Writes each character behind so many that are passed over.
fn push_every(draft: &mut Draft, scan: &mut Scan, between: u128) -> Result<(), Memory>
    ensures { OnOk result (draft.new ≡ draft.old ++ every between 0 scan.old) }
{
    let mut pass = 0;
    while let Some(c) = scan.next() {
        if pass == 0 {
            draft.push(c)?;
            pass = between;
        } else {
            pass -= 1;
        }
    }
    Ok(())
}

/// The same from the end.
fn push_every_back(draft: &mut Draft, scan: &mut Scan, between: u128) -> Result<(), Memory>
    ensures { OnOk result (draft.new ≡ draft.old ++ every between 0 (reverse scan.old)) }
{
    let mut pass = 0;
    while let Some(c) = scan.next_back() {
        if pass == 0 {
            draft.push(c)?;
            pass = between;
        } else {
            pass -= 1;
        }
    }
    Ok(())
}

/// A text of each character behind so many that are passed over.
fn picked(alloc: Global, scan: Scan, between: u128) -> Result<Text, StrErr>
    requires { between < 2 ^ 127 }
    ensures { Answers result (within (every between 0 scan.entry)) }
{
    if picked_len(char_count(scan.as_str()), between) > LENGTH_LIMIT as u128 {
        return Err(StrErr::Length);
    }
    let mut draft = Draft::new(alloc);
    let mut rest = scan;
    push_every(&mut draft, &mut rest, between)?;
    Ok(draft.into_text())
}

/// The same from the end.
fn picked_back(alloc: Global, scan: Scan, between: u128) -> Result<Text, StrErr>
    requires { between < 2 ^ 127 }
    ensures { Answers result (within (every between 0 (reverse scan.entry))) }
{
    if picked_len(char_count(scan.as_str()), between) > LENGTH_LIMIT as u128 {
        return Err(StrErr::Length);
    }
    let mut draft = Draft::new(alloc);
    let mut rest = scan;
    push_every_back(&mut draft, &mut rest, between)?;
    Ok(draft.into_text())
}

/// Which way a step goes, and how many characters it passes over. The step isn't 0.
fn stride_from(step: Option<i128>) -> Stride
    ensures value { result ≡ stride_of step }
    ensures short { IsShort result }
{
    match step {
        None => Stride::Forward(0),
        Some(step) if step < 0 => Stride::Back(step.unsigned_abs() - 1),
        Some(step) => Stride::Forward(step.unsigned_abs().saturating_sub(1)),
    }
}

/// The characters that a slice picks (Language Reference 6.3.3). The step isn't 0. Length where
/// that has more than 16,777,216 characters.
pub fn slice(
    alloc: Global,
    text: &Text,
    start: Option<i128>,
    stop: Option<i128>,
    step: Option<i128>,
) -> Result<Text, StrErr>
    requires { step ≢ Some (pos 0) }
    ensures { Answers result (within (sliced start stop step (chars text.now))) }
{
    let text = text.as_str();
    let count = char_count(text);
    match stride_from(step) {
        Stride::Forward(between) => {
            let from = place_or(count, start, 0);
            let to = place_or(count, stop, count);
            picked(alloc, middle(text, count, from, to), between)
        }
        Stride::Back(between) => {
            let from = behind_or(count, stop, 0);
            let to = behind_or(count, start, count);
            picked_back(alloc, middle(text, count, from, to), between)
        }
    }
}
