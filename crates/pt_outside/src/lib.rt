//! The real files and streams. They keep their count of faults, and tell nothing of what they hold.
#![tactic(auto)]

ghost use Rattle.std.specs.Prelude.{ℕ, List, ◌-◌, ◌^◌};
ghost use Rattle.pt_base.specs.Told.Told.{Silent};

use pt_base::{Shelf, ShelfErr, Sink, SinkErr};
use std::alloc::Global;
use std::fs;
use std::io::{self, ErrorKind, Read, Write};
use std::rt::Files;

/// The files of the system.
#[derive(Drop)]
pub struct FileShelf<'a, R: Files> {
    rt: &'a R,
    faults: u64,
}

impl<'a, R: Files> FileShelf<'a, R> {
    /// The files that this runtime opens.
    pub fn new(rt: &'a R) -> FileShelf<'a, R> {
        FileShelf { rt, faults: 0 }
    }
}

/// The bytes of a file, and one more than `max` at most.
fn read_some<R: Files>(alloc: Global, rt: &R, name: &str, max: u64) -> io::Result<Vec<u8>> {
    let mut bytes = Vec::new(alloc);
    let file = fs::open(rt, name)?;
    file.take(max.saturating_add(1)).read_to_end(&mut bytes)?;
    Ok(bytes)
}

impl<R: Files> Shelf for FileShelf<'_, R> {
    ghost told = { λ _ _. Silent };

    ghost faults = { λ s. s.faults };

    ghost most = { λ _. 2 ^ 64 - 1 };

    fn read(&mut self, alloc: Global, name: &str, max: u64) -> Result<Vec<u8>, ShelfErr> {
        let faults = self.faults;
        match read_some(alloc, self.rt, name, max) {
            Ok(bytes) => {
                if bytes.len() as u64 > max {
                    Err(ShelfErr::TooLong)
                } else {
                    Ok(bytes)
                }
            }
            Err(error) => {
                if error.kind() == ErrorKind::OutOfMemory {
                    return Err(ShelfErr::Memory);
                }
                self.faults = faults.saturating_add(1);
                Err(ShelfErr::Failed)
            }
        }
    }
}

/// A stream of the system. A piece that it doesn't take in full is a fault.
#[derive(Drop)]
pub struct StreamSink<W: Write + Drop> {
    inner: W,
    faults: u64,
}

impl<W: Write + Drop> StreamSink<W> {
    /// The stream behind this writer.
    pub fn new(inner: W) -> StreamSink<W> {
        StreamSink { inner, faults: 0 }
    }
}

impl<W: Write + Drop> Sink for StreamSink<W> {
    ghost taken = { λ _ _ _. ⊥ };

    ghost faults = { λ s. s.faults };

    ghost most = { λ _. 2 ^ 64 - 1 };

    fn write(&mut self, piece: &[u8]) -> Result<(), SinkErr> {
        let faults = self.faults;
        match self.inner.write_all(piece) {
            Ok(()) => Ok(()),
            Err(_) => {
                self.faults = faults.saturating_add(1);
                Err(SinkErr::Failed)
            }
        }
    }
}

#[cfg(test)]
mod tests {
    use super::*;
    use std::test::Fail;

    #[test]
    fn reads_files(rt: HostRuntime) -> Result<(), Fail> {
        fs::write(&rt, "a.py", "print(1)")?;
        let mut shelf = FileShelf::new(&rt);
        let whole = shelf.read(rt.alloc(), "a.py", 8).map(|text| text.len());
        assert_eq!(rt; whole, Ok(8));
        let long = shelf.read(rt.alloc(), "a.py", 7).map(|text| text.len());
        assert_eq!(rt; long, Err(ShelfErr::TooLong));
        let none = shelf.read(rt.alloc(), "b.py", 8).map(|text| text.len());
        assert_eq!(rt; none, Err(ShelfErr::Failed));
        let folder = shelf.read(rt.alloc(), ".", 8).map(|text| text.len());
        assert_eq!(rt; folder, Err(ShelfErr::Failed));
        assert_eq!(rt; shelf.faults, 2);
        Ok(())
    }

    #[test]
    fn writes_to_a_stream(rt: HostRuntime) -> Result<(), Fail> {
        let mut sink = StreamSink::new(Vec::new(rt.alloc()));
        assert_eq!(rt; sink.write(b"one"), Ok(()));
        assert_eq!(rt; sink.inner.as_slice(), b"one".as_slice());
        assert_eq!(rt; sink.faults, 0);
        Ok(())
    }
}
