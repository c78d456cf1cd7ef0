use pt_base::{Dup, Memory};
use pt_heap::Value;
use std::alloc::Global;
use std::mem;

/// How a generator is resumed (Language Reference 6.2.9.1, "Generator-iterator methods").
#[derive(Clone, Copy, Debug, PartialEq, Eq)]
pub enum How {
    Next,
    Send(Value),
    Throw(Value),
    Close,
}

impl How {
    ghost use Rattle.std.specs.Prelude.{◌≡◌};
    ghost use Rattle.pt_gen.specs.States.{sends_value};

    /// Whether a value other than None is sent.
    pub fn sends_value(&self) -> bool
        ensures { result ≡ sends_value self.now }
    {
        match self {
            How::Send(Value::None) => false,
            How::Send(_) => true,
            _ => false,
        }
    }
}

/// Why a generator isn't resumed.
#[derive(Clone, Copy, Debug, PartialEq, Eq)]
pub enum GenErr {
    /// It runs.
    Running,
    /// A value other than None was sent before it had begun.
    SendEarly,
    /// It has finished.
    Done,
}

/// The state of a generator.
#[derive(Clone, Copy, Debug, PartialEq, Eq)]
pub enum GenState {
    /// It hasn't begun.
    Fresh,
    /// It waits at a yield.
    Suspended,
    Running,
    Finished,
}

/// A generator, with its activation where that isn't open.
#[derive(Debug, Drop)]
pub enum Generator<A> {
    Fresh(A),
    Suspended(A),
    Running,
    Finished,
}

impl<A> Generator<A> {
    ghost use Rattle.std.specs.Prelude.{◌≡◌};
    ghost use Rattle.pt_gen.specs.States.{state_of};

    pub fn state(&self) -> GenState
        ensures { result ≡ state_of self.now }
    {
        match self {
            Generator::Fresh(_) => GenState::Fresh,
            Generator::Suspended(_) => GenState::Suspended,
            Generator::Running => GenState::Running,
            Generator::Finished => GenState::Finished,
        }
    }
}

impl<A: Drop> Generator<A> {
    ghost use Rattle.std.specs.Prelude.{◌≡◌, OnOk, OnErr};
    ghost use Rattle.pt_gen.specs.declared.generator.Generator.TheVariants.{Running};
    ghost use Rattle.pt_gen.specs.States.{resumption};

    /// Hands out the activation, where the generator can be resumed so. It runs from then on.
    pub fn begin(&mut self, how: How) -> Result<A, GenErr>
        ensures answer { result ≡ resumption how self.old }
        ensures ok { OnOk result (self.new ≡ Running) }
        ensures err { OnErr result (self.new ≡ self.old) }
    {
        match mem::replace(self, Generator::Running) {
            Generator::Running => Err(GenErr::Running),
            Generator::Suspended(activation) => Ok(activation),
            Generator::Fresh(activation) => {
                if how.sends_value() {
                    *self = Generator::Fresh(activation);
                    return Err(GenErr::SendEarly);
                }
                Ok(activation)
            }
            Generator::Finished => {
                *self = Generator::Finished;
                Err(GenErr::Done)
            }
        }
    }
}

impl<A: Dup> Dup for Generator<A> {
    fn dup(&self, alloc: Global) -> Result<Generator<A>, Memory> {
        match self {
            Generator::Fresh(activation) => Ok(Generator::Fresh(activation.dup(alloc)?)),
            Generator::Suspended(activation) => Ok(Generator::Suspended(activation.dup(alloc)?)),
            Generator::Running => Ok(Generator::Running),
            Generator::Finished => Ok(Generator::Finished),
        }
    }
}
