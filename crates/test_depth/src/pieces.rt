//! Scripts as pieces with tabs between. A piece is a kind, a count and a text: `* 500 (` is so many
//! parentheses, `> 100 if x:` so many lines, each a blank further in than the one before it, and `<`
//! lines that go back. A text is written as in the other tables.

use std::alloc::{AllocError, Global};
use test_notation::text_of;

type Written = Result<(), AllocError>;

fn repeat(out: &mut Vec<u8>, piece: &[u8], count: u32) -> Written {
    for _ in 0..count {
        out.extend_from_slice(piece)?;
    }
    Ok(())
}

/// Lines with so many blanks before each.
fn level(out: &mut Vec<u8>, lines: &str, depth: u32) -> Written {
    for line in lines.split("\\n") {
        repeat(out, b" ", depth)?;
        out.extend_from_slice(line.as_bytes())?;
        out.push(b'\n')?;
    }
    Ok(())
}

fn inward(out: &mut Vec<u8>, lines: &str, count: u32) -> Written {
    for depth in 0..count {
        level(out, lines, depth)?;
    }
    Ok(())
}

fn outward(out: &mut Vec<u8>, lines: &str, count: u32) -> Written {
    for depth in (0..count).rev() {
        level(out, lines, depth)?;
    }
    Ok(())
}

fn piece(out: &mut Vec<u8>, alloc: Global, kind: &str, count: u32, text: &str) -> Written {
    match kind {
        ">" => inward(out, text, count),
        "<" => outward(out, text, count),
        _ => repeat(out, text_of(alloc, text)?.as_slice(), count),
    }
}

/// The script that the pieces on a line are.
pub fn script_of(alloc: Global, row: &str) -> Result<Vec<u8>, AllocError> {
    let mut out = Vec::new(alloc);
    for part in row.split("\t") {
        if let Some((kind, rest)) = part.split_once(" ") {
            let (count, text) = rest.split_once(" ").unwrap_or((rest, ""));
            piece(
                &mut out,
                alloc,
                kind,
                count.parse::<u32>().unwrap_or(0),
                text,
            )?;
        }
    }
    Ok(out)
}
