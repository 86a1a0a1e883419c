//! The keys of hash tables: no contract says which are drawn, since every key serves.

use crate::Answer;
use crate::fakes::NoBytes;
use input_output::TableHash;
use std::hash::{BuildHasher, DefaultHasher, Hash, Hasher};
use std::random::RandomSource;

/// Two draws hash one number apart, and where there are no random bytes the key is zero.
pub fn drawn_keys(rt: &impl RandomSource) -> Answer {
    let one = TableHash::drawn(rt).hash_one(7u64);
    let other = TableHash::drawn(rt).hash_one(7u64);
    let none = TableHash::drawn(&NoBytes).hash_one(7u64);
    let mut under_zero = DefaultHasher::new();
    7u64.hash(&mut under_zero);
    Ok(one != other && none == under_zero.finish())
}
