//! Texts that stand on a line: `\n`, `\r`, `\t` and `\f`, `\xff` for a byte, and `\\`. A piece that
//! stands many times is `\(x,\*4096\)`, or `\(x\/100\)` for that many lines, each a blank further in.

use std::alloc::{AllocError, Global};

type Written = Result<(), AllocError>;

fn repeat(out: &mut Vec<u8>, piece: &[u8], count: &str) -> Written {
    for _ in 0..count.parse::<u32>().unwrap_or(0) {
        out.extend_from_slice(piece)?;
    }
    Ok(())
}

fn steps(out: &mut Vec<u8>, piece: &[u8], count: &str) -> Written {
    for depth in 0..count.parse::<u32>().unwrap_or(0) {
        for _ in 0..depth {
            out.push(b' ')?;
        }
        out.extend_from_slice(piece)?;
        out.push(b'\n')?;
    }
    Ok(())
}

fn push_byte(out: &mut Vec<u8>, byte: u8, rest: &str) -> Written {
    out.push(byte)?;
    out.extend_from_slice(rest.as_bytes())
}

/// A byte of two hexadecimal digits.
fn hexadecimal(out: &mut Vec<u8>, text: &str) -> Written {
    match text.split_at_checked(2) {
        Some((digits, rest)) => {
            let byte = u8::from_str_radix(digits, 16).unwrap_or(0);
            push_byte(out, byte, rest)
        }
        None => Ok(()),
    }
}

/// What stands behind a backslash. The answer is the piece that is repeated next.
fn escape<'a>(out: &mut Vec<u8>, piece: &'a [u8], part: &'a str) -> Result<&'a [u8], AllocError> {
    if let Some((letter, rest)) = part.split_at_checked(1) {
        match letter {
            "n" => push_byte(out, b'\n', rest)?,
            "r" => push_byte(out, b'\r', rest)?,
            "t" => push_byte(out, b'\t', rest)?,
            "f" => push_byte(out, 12, rest)?,
            "x" => hexadecimal(out, rest)?,
            "(" => return Ok(rest.as_bytes()),
            "*" => repeat(out, piece, rest)?,
            "/" => steps(out, piece, rest)?,
            _ => out.extend_from_slice(rest.as_bytes())?,
        }
    }
    Ok(piece)
}

/// The bytes of the text that a row is.
pub fn text_of(alloc: Global, row: &str) -> Result<Vec<u8>, AllocError> {
    let mut out = Vec::new(alloc);
    let mut piece: &[u8] = &[];
    let mut is_plain = true;
    for part in row.split("\\") {
        if is_plain {
            out.extend_from_slice(part.as_bytes())?;
            is_plain = false;
        } else if part.is_empty() {
            out.push(b'\\')?;
            is_plain = true;
        } else {
            piece = escape(&mut out, piece, part)?;
        }
    }
    Ok(out)
}
