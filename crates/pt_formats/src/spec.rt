ghost use Rattle.std.specs.Prelude.{◌≡◌};
ghost use Rattle.std.specs.Str.{chars};
ghost use Rattle.pt_strs.specs.Answer.{counted};
ghost use Rattle.pt_formats.specs.Spec.{align_of, fill_of, kind_of, read_sign, read_width};
ghost use Rattle.pt_formats.specs.Spec.{read_zero, sign_of, spec_of};

use pt_strs::Scan;

/// Where a value stands in its field.
#[derive(Clone, Copy, Debug, PartialEq, Eq)]
pub enum Align {
    Left,
    Right,
    Center,
    /// The sign stands left and the digits right.
    Inside,
}

/// What stands before a number that isn't negative.
#[derive(Clone, Copy, Debug, PartialEq, Eq)]
pub enum Sign {
    Plus,
    Minus,
    Blank,
}

/// What a value is shown as.
#[derive(Clone, Copy, Debug, PartialEq, Eq)]
pub enum Kind {
    Absent,
    Decimal,
    Hex,
    UpperHex,
    Binary,
    Octal,
    String,
}

/// A format spec.
#[derive(Clone, Copy, Debug)]
pub struct Spec {
    pub fill: Option<char>,
    pub align: Option<Align>,
    pub sign: Option<Sign>,
    /// Whether a 0 stands before the width.
    pub zero: bool,
    pub width: usize,
    pub kind: Kind,
}

fn align_of(c: char) -> Option<Align>
    ensures { result ≡ align_of c }
{
    match c {
        '<' => Some(Align::Left),
        '>' => Some(Align::Right),
        '^' => Some(Align::Center),
        '=' => Some(Align::Inside),
        _ => None,
    }
}

fn sign_of(c: char) -> Option<Sign>
    ensures { result ≡ sign_of c }
{
    match c {
        '+' => Some(Sign::Plus),
        '-' => Some(Sign::Minus),
        ' ' => Some(Sign::Blank),
        _ => None,
    }
}

/// Takes an align off the front, with the fill that may stand before it.
fn read_fill(scan: &mut Scan) -> (Option<char>, Option<Align>)
    ensures value { result ≡ (fill_of scan.old).value }
    ensures rest { scan.new ≡ (fill_of scan.old).rest }
{
    let mut behind = scan.again();
    let Some(first) = behind.next() else {
        return (None, None);
    };
    let mut further = behind.again();
    if let Some(second) = further.next() {
        if let Some(align) = align_of(second) {
            *scan = further;
            return (Some(first), Some(align));
        }
    }
    match align_of(first) {
        Some(align) => {
            *scan = behind;
            (None, Some(align))
        }
        None => (None, None),
    }
}

/// Takes a sign off the front.
fn read_sign(scan: &mut Scan) -> Option<Sign>
    ensures value { result ≡ (read_sign scan.old).value }
    ensures rest { scan.new ≡ (read_sign scan.old).rest }
{
    let mut behind = scan.again();
    let Some(first) = behind.next() else {
        return None;
    };
    match sign_of(first) {
        Some(sign) => {
            *scan = behind;
            Some(sign)
        }
        None => None,
    }
}

/// Takes a 0 off the front.
fn read_zero(scan: &mut Scan) -> bool
    ensures value { result ≡ (read_zero scan.old).value }
    ensures rest { scan.new ≡ (read_zero scan.old).rest }
{
    let mut behind = scan.again();
    let Some(first) = behind.next() else {
        return false;
    };
    if first == '0' {
        *scan = behind;
        return true;
    }
    false
}

/// Takes decimal digits off the front.
fn read_width(scan: &mut Scan) -> usize
    ensures value { result ≡ counted (read_width 0 scan.old).value }
    ensures rest { scan.new ≡ (read_width 0 scan.old).rest }
{
    let mut width = 0usize;
    loop {
        let mut behind = scan.again();
        match behind.next() {
            Some(c) if c.is_ascii_digit() => {
                width = width.saturating_mul(10).saturating_add(c as usize - 48);
                *scan = behind;
            }
            _ => return width,
        }
    }
}

/// The type that is all that is left.
fn read_kind(scan: &mut Scan) -> Option<Kind>
    ensures { result ≡ kind_of scan.old }
{
    let Some(c) = scan.next() else {
        return Some(Kind::Absent);
    };
    if !scan.is_empty() {
        return None;
    }
    match c {
        'd' => Some(Kind::Decimal),
        'x' => Some(Kind::Hex),
        'X' => Some(Kind::UpperHex),
        'b' => Some(Kind::Binary),
        'o' => Some(Kind::Octal),
        's' => Some(Kind::String),
        _ => None,
    }
}

/// The format spec that a text is.
pub fn read_spec(text: &str) -> Option<Spec>
    ensures { result ≡ spec_of (chars text.now) }
{
    let mut scan = Scan::new(text);
    let (fill, align) = read_fill(&mut scan);
    let sign = read_sign(&mut scan);
    let zero = read_zero(&mut scan);
    let width = read_width(&mut scan);
    let kind = read_kind(&mut scan)?;
    Some(Spec {
        fill,
        align,
        sign,
        zero,
        width,
        kind,
    })
}
