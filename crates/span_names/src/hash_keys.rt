//! How the maps that files fill are hashed.
ghost use Rattle.span_names.specs.HashKeys.{hasher_by};

use std::hash::{BuildHasher, DefaultHasher, RandomState};
use std::random::RandomSource;

/// The keys by which a map hashes what a file may choose: names, processes, threads, series, and the keys of async spans and flows. No
/// answer depends on them.
#[derive(Clone, Copy)]
pub struct HashKeys {
    random: Option<RandomState>,
}

impl HashKeys {
    /// Fixed keys, for input that is trusted: they are public, so anyone can choose names that all collide.
    pub fn fixed() -> HashKeys {
        HashKeys { random: None }
    }

    /// Keys of random bytes, so that nobody outside can know which names collide; the fixed ones where no random bytes can be had.
    pub fn random(rt: &impl RandomSource) -> HashKeys {
        HashKeys {
            random: RandomState::new(rt).ok(),
        }
    }
}

impl BuildHasher for HashKeys {
    type Hasher = DefaultHasher;

    ghost build_hasher = { hasher_by };

    fn build_hasher(&self) -> DefaultHasher {
        match self.random {
            Some(keys) => keys.build_hasher(),
            None => DefaultHasher::new(),
        }
    }
}
