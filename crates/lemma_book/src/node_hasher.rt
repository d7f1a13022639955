ghost use Rattle.std.specs.Prelude.{◌≡◌, ◌*◌, ◌+◌, ◌%◌, ◌/◌, ◌^◌, ◌<◌};
ghost use Rattle.lemma_book.specs.NodeHasher.{number_in};

use std::hash::{BuildHasher, Hasher};

/// Hashes keys that name nodes, so that neighbours in a circuit lie side by side in a table.
///
/// A pass over a circuit looks nodes up nearly in order. With a hash that scatters them each look waits for
/// memory, and a circuit of a million gates against itself spent a third of its time there. The low bits,
/// which choose the place in a table, go on by one from variable to variable; the eight bits above, by which
/// a table tells its keys apart, are scattered. The seed is fixed, so whoever picks a circuit can slow its
/// check down.
#[derive(Clone, Copy)]
pub struct NodeHasher {
    state: u64,
}

impl NodeHasher {
    /// A hasher to which nothing has been written.
    pub fn new() -> NodeHasher
        ensures { result ≡ record { state = 0 } }
    {
        NodeHasher { state: 0 }
    }
}

impl Hasher for NodeHasher {
    ghost write = { λ h bytes. record { state = (h.state * 31 + number_in bytes) % 2 ^ 64 } };

    ghost finish = { λ h. h.state % 2 ^ 24 + (h.state * 0x9e37_79b9_7f4a_7c15) % 2 ^ 64 / 2 ^ 56 * 2 ^ 24 };

    fn finish(&self) -> u64 {
        let scattered = self.state.wrapping_mul(0x9e37_79b9_7f4a_7c15) / 0x100_0000_0000_0000;
        self.state % 0x100_0000 + scattered * 0x100_0000
    }

    fn write(&mut self, bytes: &[u8]) {
        self.state = self.state.wrapping_mul(31).wrapping_add(number_in(bytes));
    }
}

impl BuildHasher for NodeHasher {
    type Hasher = NodeHasher;

    ghost build_hasher = { λ h. h };

    fn build_hasher(&self) -> NodeHasher {
        *self
    }
}

/// The number that four bytes write, and of any others the first byte: they name a variant or a sign.
#[tactic(auto, unfolding(crate::specs::NodeHasher::number_in))]
fn number_in(bytes: &[u8]) -> u64
    ensures number { result ≡ number_in bytes.now }
    ensures range { result < 2 ^ 32 }
{
    if bytes.is_empty() {
        0
    } else if bytes.len() == 4 {
        u64::from(bytes[0])
            + u64::from(bytes[1]) * 0x100
            + u64::from(bytes[2]) * 0x1_0000
            + u64::from(bytes[3]) * 0x100_0000
    } else {
        u64::from(bytes[0])
    }
}
