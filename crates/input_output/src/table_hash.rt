ghost use Rattle.input_output.specs.code.TableHash.{first_hasher};

use std::hash::{BuildHasher, DefaultHasher, RandomState};
use std::random::RandomSource;

/// Makes the hashers of a table. None is made but by [`TableHash::drawn`].
///
/// A key made of the capture's bytes would need no random bytes, but each key of a table would have to go through a
/// one-way hash before the first look-up.
#[derive(Clone, Copy)]
pub struct TableHash {
    key: Key,
}

#[derive(Clone, Copy)]
enum Key {
    /// Random bytes.
    Drawn(RandomState),
    /// Zero, where the system gives no random bytes.
    Zero,
}

impl TableHash {
    /// A hash under a key that nobody knows, where the system gives random bytes.
    pub fn drawn(rt: &impl RandomSource) -> TableHash {
        let key = match RandomState::new(rt) {
            Ok(drawn) => Key::Drawn(drawn),
            Err(_) => Key::Zero,
        };
        TableHash { key }
    }
}

impl BuildHasher for TableHash {
    type Hasher = DefaultHasher;

    ghost build_hasher = { first_hasher };

    fn build_hasher(&self) -> DefaultHasher {
        match &self.key {
            Key::Drawn(drawn) => drawn.build_hasher(),
            Key::Zero => DefaultHasher::new(),
        }
    }
}
