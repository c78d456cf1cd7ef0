//! The notation of texts in a table: `\n`, `\r` and `\t`, a byte as `\xHH`, and `\<N:..\>` for what
//! stands between, N times. A backslash itself is `\x5c`.

use crate::rows::NoRow;
use std::alloc::Global;

/// The bytes that were read, and of what is to be repeated the first place and how often.
#[derive(Drop)]
struct Reading {
    alloc: Global,
    bytes: Vec<u8>,
    from: usize,
    times: u32,
}

impl Reading {
    /// Reads what stands behind a backslash, and answers what is left.
    fn escape<'a>(&mut self, text: &'a str) -> Result<&'a str, NoRow> {
        let (letter, rest) = text.split_at_checked(1).ok_or(NoRow)?;
        match letter {
            "n" => self.byte(b'\n', rest),
            "r" => self.byte(b'\r', rest),
            "t" => self.byte(b'\t', rest),
            "x" => {
                let (digits, rest) = rest.split_at_checked(2).ok_or(NoRow)?;
                let byte = u8::from_str_radix(digits, 16).map_err(|_| NoRow)?;
                self.byte(byte, rest)
            }
            "<" => {
                let (times, rest) = rest.split_once(":").ok_or(NoRow)?;
                self.from = self.bytes.len();
                self.times = times.parse::<u32>().map_err(|_| NoRow)?;
                Ok(rest)
            }
            ">" => {
                self.repeat()?;
                Ok(rest)
            }
            _ => Err(NoRow),
        }
    }

    fn byte<'a>(&mut self, byte: u8, rest: &'a str) -> Result<&'a str, NoRow> {
        self.bytes.push(byte)?;
        Ok(rest)
    }

    fn repeat(&mut self) -> Result<(), NoRow> {
        let piece = self.bytes.get(self.from..).unwrap_or_default();
        let piece = Vec::from_slice(self.alloc, piece)?;
        for _ in 1..self.times {
            self.bytes.extend_from_slice(piece.as_slice())?;
        }
        Ok(())
    }
}

/// The bytes that a text stands for.
pub fn bytes_of(alloc: Global, text: &str) -> Result<Vec<u8>, NoRow> {
    let mut reading = Reading {
        alloc,
        bytes: Vec::new(alloc),
        from: 0,
        times: 1,
    };
    for (number, part) in text.split('\\').enumerate() {
        let plain = if number == 0 {
            part
        } else {
            reading.escape(part)?
        };
        reading.bytes.extend_from_slice(plain.as_bytes())?;
    }
    Ok(reading.bytes)
}
