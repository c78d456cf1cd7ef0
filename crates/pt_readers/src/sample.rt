//! A reader of a small grammar, which shows how the words of this crate are met.

ghost use Rattle.std.specs.Prelude.{List, ℕ, Result, Err, length, ◌≡◌, ◌≢◌, IsTrue, Some, false};
ghost use Rattle.pt_readers.specs.Reading.{next_of, behind};
ghost use Rattle.pt_readers.specs.Settled.{Settled};
ghost use Rattle.pt_readers.specs.Sample.{an_item, a_sum};
ghost use Rattle.pt_readers.specs.Whole.{Tells};
ghost use Rattle.pt_readers.specs.declared.halt.Halt.{Halt as Cause};
ghost use Rattle.pt_readers.specs.declared.halt.Halt.TheVariants as cause;
ghost use Rattle.pt_readers.specs.declared.sample.Mark.{Mark as Token};

use crate::{Halt, Tokens};

/// A token of the sample.
#[derive(Clone, Copy, Debug, PartialEq, Eq)]
pub enum Mark {
    One,
    Plus,
    Open,
    Close,
}

/// A reader of sums.
#[derive(Debug, Drop)]
pub struct Sums<'a> {
    marks: Tokens<'a, Mark>,
}

impl<'a> Sums<'a> {
    /// Goes on behind this mark, where it is next.
    fn take(&mut self, mark: Mark) -> bool
        ensures found { IsTrue result → (next_of self.old.marks ≡ Some mark) × (self.new.marks ≡ behind self.old.marks) }
        ensures none { result ≡ false → (next_of self.old.marks ≢ Some mark) × (self.new.marks ≡ self.old.marks) }
    {
        match self.marks.peek() {
            Some(next) if *next == mark => {
                self.marks.skip();
                true
            }
            _ => false,
        }
    }

    /// An item, and how deep its parentheses are.
    #[cycle(reading)]
    fn item(&mut self, depth: u32) -> Result<u32, Halt>
        ensures { Settled (an_item depth) (λ d. d) self.old.marks self.new.marks result }
    {
        let Some(mark) = self.marks.peek() else {
            return Err(Halt::Unexpected);
        };
        match *mark {
            Mark::One => {
                self.marks.skip();
                Ok(0)
            }
            Mark::Open => {
                if depth == 0 {
                    return Err(Halt::Limit);
                }
                self.marks.skip();
                let inner = self.sum(depth - 1)?;
                if !self.take(Mark::Close) {
                    return Err(Halt::Unexpected);
                }
                Ok(inner + 1)
            }
            _ => Err(Halt::Unexpected),
        }
    }

    /// A sum, and how deep its parentheses are.
    #[cycle(reading)]
    fn sum(&mut self, depth: u32) -> Result<u32, Halt>
        ensures { Settled (a_sum depth) (λ d. d) self.old.marks self.new.marks result }
    {
        let mut deepest = self.item(depth)?;
        'more: while self.take(Mark::Plus) {
            let next = self.item(depth)?;
            deepest = deepest.max(next);
        }
        Ok(deepest)
    }
}

/// Reads a sum with which the marks begin, of at most so many parentheses inside one another.
/// Beside the answer it says how many marks are left where the reader stopped.
pub fn sum(marks: &[Mark], depth: u32) -> (Result<u32, Halt>, usize)
    ensures { (rest : List Token) × (length rest ≡ result.1) × Tells (a_sum depth) marks.now rest result.0 }
{
    let mut sums = Sums {
        marks: Tokens::new(marks),
    };
    let answer = sums.sum(depth);
    (answer, sums.marks.len())
}

/// Apart from want of memory, marks have one answer.
pub fn one_answer()
    ensures { (most : ℕ) (ts rest rest' : List Token) (r r' : Result ℕ Cause) → Tells (a_sum most) ts rest r → Tells (a_sum most) ts rest' r' → r ≢ Err cause.Memory → r' ≢ Err cause.Memory → (r ≡ r') × (rest ≡ rest') }
{}

#[cfg(test)]
mod tests {
    use super::*;
    use pt_base::Memory;
    use std::alloc::Global;
    use std::test::Fail;

    const MOST: u32 = 2;

    // The marks of a spelling; a byte that is no mark ends it.
    fn marks(alloc: Global, spelling: &[u8]) -> Result<Vec<Mark>, Fail> {
        let mut all = Vec::new(alloc);
        for byte in spelling {
            all.push(match byte {
                b'1' => Mark::One,
                b'+' => Mark::Plus,
                b'(' => Mark::Open,
                _ => Mark::Close,
            })?;
        }
        Ok(all)
    }

    #[test]
    fn sums_are_read_as_far_as_they_go(rt: HostRuntime) -> Result<(), Fail> {
        let rows: [(&[u8], Result<u32, Halt>, usize); 12] = [
            (b"1", Ok(0), 0),
            (b"1+1)", Ok(0), 1),
            (b"(1)+((1))", Ok(2), 0),
            (b"1(", Ok(0), 1),
            (b"", Err(Halt::Unexpected), 0),
            (b"1+", Err(Halt::Unexpected), 0),
            (b"1++1", Err(Halt::Unexpected), 2),
            (b"(1", Err(Halt::Unexpected), 0),
            (b"(1(", Err(Halt::Unexpected), 1),
            (b")", Err(Halt::Unexpected), 1),
            (b"(((", Err(Halt::Limit), 1),
            (b"1+(()", Err(Halt::Unexpected), 1),
        ];
        for (spelling, answer, left) in rows {
            let marks = marks(rt.alloc(), spelling)?;
            assert_eq!(rt; sum(marks.as_slice(), MOST), (answer, left), "{spelling:?}");
        }
        Ok(())
    }

    #[test]
    fn tokens_are_passed_one_by_one(rt: HostRuntime) {
        let marks = [Mark::One, Mark::Plus];
        let mut tokens = Tokens::new(&marks);
        assert_eq!(rt; tokens.peek(), Some(&Mark::One));
        tokens.skip();
        assert_eq!(rt; tokens.peek(), Some(&Mark::Plus));
        assert!(rt; !tokens.is_empty());
        tokens.skip();
        tokens.skip();
        assert_eq!(rt; tokens.peek(), None);
        assert!(rt; tokens.is_empty());
    }

    #[test]
    fn want_of_memory_is_passed_on(rt: HostRuntime) {
        assert_eq!(rt; Halt::from(Memory), Halt::Memory);
    }
}
