ghost use Rattle.std.specs.Prelude.{◌≡◌, ◌<◌, ◌*◌, ℕ, [], IfOk, length};
ghost use Rattle.std.specs.List.{slice_index_or};
ghost use Rattle.word_sim.specs.Patterns.{words_of};
ghost use Rattle.word_sim.specs.Rows.{AreRows, AreSignatures, row_at};

use crate::pool::Pool;
use crate::rows::{fill, row};
use netlist::Net;
use std::alloc::{AllocError, Global};
use std::marker::Model;

/// The rows of all nodes of a net, in the order of positions: what each node is on the patterns of a pool.
#[derive(Drop)]
pub struct Sigs {
    patterns: u64,
    positions: u32,
    words: Vec<u64>,
}

impl Model for Sigs {
    ghost use Rattle.std.specs.Prelude.{◌≡◌, ◌*◌, length, map};
    ghost use Rattle.std.specs.List.{range_with_len};
    ghost use Rattle.word_sim.specs.Patterns.{words_of};
    ghost use Rattle.word_sim.specs.Rows.{Signatures, row_at};

    ghost Value = { Signatures };

    ghost view = { λ s. record {
      patterns = s.patterns;
      rows = map (λ p. row_at (words_of s.patterns) p s.words.items) (range_with_len 0 s.positions);
    } };

    ghost invariant = { λ s. length s.words.items ≡ s.positions * words_of s.patterns };
}

impl Sigs {
    /// Keeps the rows of all nodes on the patterns of a pool.
    pub fn of(net: &Net, pool: &Pool, words: Vec<u64>) -> Sigs
        requires { AreRows net.now pool.now.patterns words.items }
        ensures { AreSignatures net.now pool.now.patterns result }
    {
        Sigs {
            patterns: pool.patterns(),
            positions: net.positions(),
            words,
        }
    }

    /// On how many patterns the rows tell the nodes' values.
    pub fn patterns(&self) -> u64
        ensures { result ≡ self.now.patterns }
    {
        self.patterns
    }

    /// All rows, one after another.
    pub fn words(&self) -> &[u64]
        ensures size { length result.now ≡ length self.now.rows * words_of self.now.patterns }
        ensures rows { (p : ℕ) → p < length self.now.rows
            → row_at (words_of self.now.patterns) p result.now ≡ slice_index_or self.now.rows p [] }
    {
        self.words.as_slice()
    }

    /// The row of the node at a position, its words in order; the bits behind the last pattern are 0.
    pub fn row(&self, position: u32) -> &[u64]
        requires { position < length self.now.rows }
        ensures row { result.now ≡ slice_index_or self.now.rows position [] }
        ensures words { length result.now ≡ words_of self.now.patterns }
    {
        row(
            self.words.as_slice(),
            position,
            self.patterns.div_ceil(64) as usize,
        )
    }
}

/// The rows of all nodes on the patterns of a pool.
pub fn signatures(alloc: Global, net: &Net, pool: &Pool) -> Result<Sigs, AllocError>
    requires { pool.now.inputs ≡ length net.now.a.inputs }
    ensures { IfOk result (AreSignatures net.now pool.now.patterns) }
{
    let mut words = vec![in alloc; 0; net.positions() as usize * pool.words() as usize]?;
    fill(net, pool, words.as_mut_slice());
    Ok(Sigs::of(net, pool, words))
}
