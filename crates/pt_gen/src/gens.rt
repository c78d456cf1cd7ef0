ghost use Rattle.std.specs.Prelude.{◌≡◌, ◌++◌, [], ◌∷◌, ◌<◌, Some, length, slice_get, slice_set};
ghost use Rattle.std.specs.Prelude.{OnOk, OnErr, IfOk};
ghost use Rattle.std.specs.Option.{option_map};
ghost use Rattle.pt_gen.specs.declared.generator.Generator.TheVariants.{Fresh, Suspended, Running};
ghost use Rattle.pt_gen.specs.declared.generator.Generator.TheVariants.{Finished};
ghost use Rattle.pt_gen.specs.States.{resumption, state_of};

use crate::{GenErr, GenState, Generator, How};
use pt_base::{Dup, Memory};
use std::alloc::Global;
use std::marker::Model;

/// The most generators that are kept.
const GENERATOR_LIMIT: usize = 4_294_967_295;

/// The generators of a run, by number from 0. Contracts see the list of them.
#[derive(Drop)]
pub struct Gens<A> {
    generators: Vec<Generator<A>>,
}

impl<A> Model for Gens<A> {
    ghost use Rattle.std.specs.Prelude.{List};
    ghost use Rattle.pt_gen.specs.declared.generator.Generator.{Generator};

    ghost Value = { List (Generator A) };

    ghost view = { λ g. g.generators.items };
}

impl<A> Gens<A> {
    pub fn new(alloc: Global) -> Gens<A>
        ensures { result ≡ [] }
    {
        Gens {
            generators: Vec::new(alloc),
        }
    }

    /// How many generators there are.
    pub fn len(&self) -> usize
        ensures { result ≡ length self.now }
    {
        self.generators.len()
    }

    pub fn state(&self, n: u32) -> GenState
        requires { n < length self.now }
        ensures state { option_map state_of (slice_get self.now n) ≡ Some result }
        ensures running { result ≡ GenState.Running → slice_get self.now n ≡ Some Running }
    {
        self.generators[n as usize].state()
    }
}

impl<A: Drop> Gens<A> {
    /// Makes a generator that hasn't begun, and answers its number. Where 2^32 - 1 are there it
    /// answers Memory.
    pub fn add(&mut self, activation: A) -> Result<u32, Memory>
        ensures new { OnOk result (self.new ≡ self.old ++ Fresh activation ∷ []) }
        ensures number { IfOk result (λ n. n ≡ length self.old) }
        ensures err { OnErr result (self.new ≡ self.old) }
    {
        let number = self.generators.len();
        if number >= GENERATOR_LIMIT {
            return Err(Memory);
        }
        self.generators.push(Generator::Fresh(activation))?;
        Ok(number as u32)
    }

    /// Hands out the activation of a generator, which runs from then on, or says why it can't be
    /// resumed, and leaves it as it is. For a throw or close of one that hasn't begun the caller
    /// is to finish it, and not to open the activation.
    pub fn begin(&mut self, n: u32, how: How) -> Result<A, GenErr>
        requires { n < length self.old }
        ensures answer { option_map (resumption how) (slice_get self.old n) ≡ Some result }
        ensures ok { OnOk result (self.new ≡ slice_set self.old n Running) }
        ensures running { OnOk result (slice_get self.new n ≡ Some Running) }
        ensures err { OnErr result (self.new ≡ self.old) }
    {
        self.generators[n as usize].begin(how)
    }

    /// Takes the activation of a generator that has yielded.
    pub fn suspend(&mut self, n: u32, activation: A)
        requires { slice_get self.old n ≡ Some Running }
        ensures { self.new ≡ slice_set self.old n (Suspended activation) }
    {
        self.generators[n as usize] = Generator::Suspended(activation);
    }

    /// Ends a generator whose body has ended, by a return or a raise.
    pub fn finish(&mut self, n: u32)
        requires { slice_get self.old n ≡ Some Running }
        ensures { self.new ≡ slice_set self.old n Finished }
    {
        self.generators[n as usize] = Generator::Finished;
    }
}

impl<A: Dup> Dup for Gens<A> {
    fn dup(&self, alloc: Global) -> Result<Gens<A>, Memory> {
        let mut generators = Vec::new(alloc);
        for generator in self.generators.as_slice() {
            let generator = generator.dup(alloc)?;
            generators.push(generator)?;
        }
        Ok(Gens { generators })
    }
}
