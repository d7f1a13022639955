use netlist::{Fanins, Net, Placed};
use std::hash::{BuildHasher, DefaultHasher, FoldHasher, Hasher};

/// Hashes that begin with a seed which the circuits make.
///
/// A stranger picks the circuits, and with a fixed seed could pick pairs of roots that share slots: 100,000
/// such gates took nine times as long as others. Here all fanins make the seed, by SipHash-1-3 (Aumasson and
/// Bernstein 2012), so whoever changes a gate to get such a pair changes the seed under which it would be one.
/// No clause depends on it: it decides how long a look-up takes, and not what it finds.
///
/// A pair is hashed by std's `FoldHasher`: for each code a multiplication of 64 bits whose halves are joined
/// by xor, as in wyhash (Wang Yi 2019) and foldhash (Orson Peters 2024).
#[derive(Clone, Copy)]
pub struct CircuitSeed {
    start: FoldHasher,
}

impl CircuitSeed {
    /// The seed of these two circuits.
    pub fn of(net: &Net) -> CircuitSeed {
        let mut seed = DefaultHasher::new();
        for fanins in net.all_fanins() {
            seed.write_u64(word_of(*fanins));
        }
        let mut start = FoldHasher::default();
        start.write_u64(seed.finish());
        CircuitSeed { start }
    }
}

impl BuildHasher for CircuitSeed {
    type Hasher = FoldHasher;

    ghost build_hasher = { λ s. s.start };

    fn build_hasher(&self) -> FoldHasher {
        self.start
    }
}

/// Both fanins of a gate in one word.
fn word_of(fanins: Fanins) -> u64 {
    code_of(fanins.left).rotate_left(32) ^ code_of(fanins.right)
}

/// Twice the position, and one more for a negation.
fn code_of(fanin: Placed) -> u64 {
    2 * u64::from(fanin.position) + if fanin.neg { 1 } else { 0 }
}
