ghost use Rattle.std.specs.Prelude.{◌≡◌, ◌≤◌};
ghost use Rattle.pt_strs.specs.Slice.{behind, bound, place};
ghost use Rattle.pt_text_operations.specs.Picked.{stride_of};

/// Which way a slice goes, and how many items it passes over between two.
#[derive(Clone, Copy, Debug)]
pub enum Stride {
    Forward(u128),
    Back(u128),
}

/// Which way a step goes, and how many items it passes over.
pub fn stride_of(step: Option<i128>) -> Stride
    ensures { result ≡ stride_of step }
{
    match step {
        None => Stride::Forward(0),
        Some(step) if step < 0 => Stride::Back(step.unsigned_abs() - 1),
        Some(step) => Stride::Forward(step.unsigned_abs().saturating_sub(1)),
    }
}

/// The place of an index among so many items; below 0 it counts from the end.
fn place(count: u128, index: i128) -> u128
    ensures value { result ≡ place count index }
    ensures within { result ≤ count }
{
    let distance = index.unsigned_abs();
    if index < 0 {
        return count.saturating_sub(distance);
    }
    distance.min(count)
}

/// The place behind that of an index.
fn behind(count: u128, index: i128) -> u128
    ensures value { result ≡ behind count index }
    ensures within { result ≤ count }
{
    let distance = index.unsigned_abs();
    if index < 0 {
        return count.saturating_sub(distance - 1);
    }
    (distance + 1).min(count)
}

/// The place of an index that may be left out.
pub fn place_or(count: u128, index: Option<i128>, default: u128) -> u128
    requires { default ≤ count }
    ensures value { result ≡ bound (place count) default index }
    ensures within { result ≤ count }
{
    match index {
        Some(index) => place(count, index),
        None => default,
    }
}

/// The place behind that of an index that may be left out.
pub fn behind_or(count: u128, index: Option<i128>, default: u128) -> u128
    requires { default ≤ count }
    ensures value { result ≡ bound (behind count) default index }
    ensures within { result ≤ count }
{
    match index {
        Some(index) => behind(count, index),
        None => default,
    }
}
