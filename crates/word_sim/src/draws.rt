ghost use Rattle.std.specs.Prelude.{◌≡◌, IfOk, map};
ghost use Rattle.std.specs.List.{range_with_len};
ghost use Rattle.word_sim.specs.Patterns.{draw};

use rand_core::SeedableRng;
use rand_core::utils::NextWord;
use rand_pcg::Lcg128Xsl64;
use std::alloc::{AllocError, Global};

/// The first words that the generator draws from a seed.
///
/// It is a permuted congruential generator (O'Neill 2014), whose words the definition computes: a seed gives
/// the same patterns on each machine.
pub(crate) fn draws(alloc: Global, seed: u64, count: usize) -> Result<Vec<u64>, AllocError>
    ensures { IfOk result (λ v. v.items ≡ map (draw seed) (range_with_len 0 count)) }
{
    let mut generator = Lcg128Xsl64::seed_from_u64(seed);
    let mut words = Vec::with_capacity(alloc, count)?;
    for _ in 0..count {
        words.push(generator.next_word())?;
    }
    Ok(words)
}
