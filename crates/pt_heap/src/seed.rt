ghost use Rattle.std.specs.Prelude.{◌≡◌};
ghost use Rattle.pt_heap.specs.Seeds.{state_after};

use std::hash::{BuildHasher, DefaultHasher, Hasher};
use std::marker::Model;

/// What the hashes of keys start from. Nothing that is answered depends on it.
#[derive(Clone, Copy)]
pub struct Seed {
    state: DefaultHasher,
}

impl Model for Seed {
    ghost use Rattle.std.specs.declared.hash.DefaultHasher.{DefaultHasher};

    ghost Value = { DefaultHasher };

    ghost view = { λ s. s.state };

    ghost inverse = { λ state. record { state = state } };
}

impl Seed {
    /// A seed that a text determines. Keys that a script is to make collide have to be chosen
    /// before its text is, and each other text has another seed.
    pub fn of(text: &[u8]) -> Seed
        ensures { result ≡ state_after text.now }
    {
        let mut digest = DefaultHasher::new();
        digest.write(text);
        let mut state = DefaultHasher::new();
        state.write_u64(digest.finish());
        Seed { state }
    }
}

impl BuildHasher for Seed {
    type Hasher = DefaultHasher;

    ghost build_hasher = { λ s. s };

    fn build_hasher(&self) -> DefaultHasher {
        self.state
    }
}
