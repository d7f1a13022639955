ghost use Rattle.std.specs.Prelude.{◌≡◌, ◌≤◌, ◌<◌, ◌∷◌, ◌++◌, ◌+◌, ◌*◌, ◌&&◌, nat_lt, min, ℕ, [], length, IfOk, OnOk, OnErr};
ghost use Rattle.std.specs.List.{AllByRecursion};
ghost use Rattle.word_sim.specs.Patterns.{is_set, part_from, truth_of, words_of};
ghost use Rattle.word_sim.specs.Patterns.{seeded as seeded_pool};
ghost use Rattle.word_sim.specs.Storage.{AreBlocks, AreSet, HasRoom, IsBlock};

use crate::draws::draws;
use std::alloc::{AllocError, Global};
use std::marker::Model;

/// Patterns of truth values for the inputs of a pair of circuits, in order.
///
/// The drawn words stand input by input, as they were drawn; of the added patterns each 64 share a
/// block of one word per input, so that a pattern is added in the time of its own length.
pub struct Pool {
    inputs: u32,
    drawn_words: u32,
    drawn: Vec<u64>,
    added_count: u32,
    added: Vec<u64>,
}

// Written out, so that a drop is one call and not one for each field at each exit of a function.
impl Drop for Pool {
    fn drop(self) {
        let Pool {
            inputs: _,
            drawn_words: _,
            drawn: _,
            added_count: _,
            added: _,
        } = self;
    }
}

impl Model for Pool {
    ghost use Rattle.std.specs.Prelude.{◌≡◌, ◌≤◌, ◌<◌, ◌*◌, ◌^◌, ◌++◌, length};
    ghost use Rattle.word_sim.specs.Patterns.{Patterns, words_of};
    ghost use Rattle.word_sim.specs.Storage.{drawn_patterns, added_patterns, IsClear};

    ghost Value = { Patterns };

    ghost view = { λ p. record {
      inputs = p.inputs;
      patterns = drawn_patterns p.inputs p.drawn_words p.drawn.items
          ++ added_patterns p.inputs p.added_count p.added.items;
    } };

    ghost invariant = { λ p. (length p.drawn.items ≡ p.inputs * p.drawn_words)
        × (length p.added.items ≡ p.inputs * words_of p.added_count)
        × (1 ≤ p.drawn_words) × (p.drawn_words ≤ 64) × (p.added_count < 2 ^ 32)
        × IsClear p.inputs p.added_count p.added.items };
}

impl Pool {
    /// The patterns that the seed draws, 64 for each of 1 to 64 words.
    pub fn seeded(alloc: Global, seed: u64, words: u32, inputs: u32) -> Result<Pool, AllocError>
        requires { (1 ≤ words) × (words ≤ 64) }
        ensures { IfOk result (λ p. p ≡ seeded_pool seed words inputs) }
    {
        Ok(Pool {
            inputs,
            drawn_words: words,
            drawn: draws(alloc, seed, inputs as usize * words as usize)?,
            added_count: 0,
            added: Vec::new(alloc),
        })
    }

    /// How many truth values a pattern has.
    pub fn inputs(&self) -> u32
        ensures { result ≡ self.now.inputs }
    {
        self.inputs
    }

    /// How many patterns there are: those that the seed drew, 64 a word, and those that were added. Each has
    /// one truth value for each input.
    pub fn patterns(&self) -> u64
        ensures count { result ≡ length self.now.patterns }
        ensures some { 64 ≤ result }
        ensures whole { AllByRecursion (λ bits. length bits ≡ self.now.inputs) self.now.patterns }
    {
        64 * u64::from(self.drawn_words) + u64::from(self.added_count)
    }

    /// How many words a row of 64 patterns a word has.
    pub fn words(&self) -> u32
        ensures words { result ≡ words_of (length self.now.patterns) }
        ensures some { 1 ≤ result }
    {
        self.drawn_words + self.added_count.div_ceil(64)
    }

    /// The input's values on the 64 patterns of a word; 0 behind the last pattern.
    pub(crate) fn word(&self, input: u32, word: u32) -> u64
        requires input { input < self.now.inputs }
        requires word { word < words_of (length self.now.patterns) }
        ensures { (b : ℕ) → b < 64 → is_set result b
            ≡ (nat_lt (64 * word + b) (length self.now.patterns) && truth_of self.now.patterns input
            (64 * word + b)) }
    {
        if word < self.drawn_words {
            self.drawn[input as usize * self.drawn_words as usize + word as usize]
        } else {
            let block = (word - self.drawn_words) as usize;
            self.added[block * self.inputs as usize + input as usize]
        }
    }

    /// The first 64 patterns, and those of at most so many words from the one on that follows so many
    /// patterns: what there is to simulate next where these were simulated before. The first tell which rows
    /// are turned, as they did then.
    pub fn part(&self, alloc: Global, seen: u64, words: u32) -> Result<Pool, AllocError>
        requires seen { seen ≤ length self.now.patterns }
        requires words { 1 ≤ words }
        ensures { IfOk result (λ p.
            p ≡ record { inputs = self.now.inputs; patterns = part_from seen words self.now.patterns }) }
    {
        let count = self.end(seen / 64, words) - seen / 64 * 64;
        let (Ok(from), Ok(added_count)) = (u32::try_from(seen / 64), u32::try_from(count)) else {
            return Err(AllocError);
        };
        Ok(Pool {
            inputs: self.inputs,
            drawn_words: 1,
            drawn: self.blocks(alloc, 0, 1)?,
            added_count,
            added: self.blocks(alloc, from, added_count.div_ceil(64))?,
        })
    }

    /// Where so many words from one on end, or the patterns before that.
    fn end(&self, from: u64, words: u32) -> u64
        ensures { result ≡ min (64 * (from + words)) (length self.now.patterns) }
    {
        let end = from.saturating_add(u64::from(words)).saturating_mul(64);
        end.min(self.patterns())
    }

    /// So many words from one on, each for all inputs.
    fn blocks(&self, alloc: Global, from: u32, count: u32) -> Result<Vec<u64>, AllocError>
        requires { from + count ≤ words_of (length self.now.patterns) }
        ensures { IfOk result (λ v. AreBlocks self.now from count v.items) }
    {
        let mut words = Vec::with_capacity(alloc, self.inputs as usize * count as usize)?;
        for place in 0..count {
            self.put_block(from + place, &mut words)?;
        }
        Ok(words)
    }

    /// Puts a word of each input last.
    fn put_block(&self, word: u32, words: &mut Vec<u64>) -> Result<(), AllocError>
        requires { word < words_of (length self.now.patterns) }
        ensures { OnOk result (IsBlock self.now word self.now.inputs words.old.items words.new.items) }
    {
        for input in 0..self.inputs() {
            words.push(self.word(input, word))?;
        }
        Ok(())
    }

    /// Puts a pattern last. Where memory is refused the pool stays as it is.
    pub fn add(&mut self, input: &[bool]) -> Result<(), AllocError>
        requires { length input.now ≡ self.old.inputs }
        ensures ok { OnOk result
            (self.new ≡ record { inputs = self.old.inputs; patterns = self.old.patterns ++ input.now ∷ [] }) }
        ensures err { OnErr result (self.new ≡ self.old) }
    {
        if self.added_count == u32::MAX {
            return Err(AllocError);
        }
        let inputs = self.inputs as usize;
        let place = self.added_count % 64;
        make_room(&mut self.added, inputs, place)?;
        set_bits(
            &mut self.added,
            (self.added_count / 64) as usize * inputs,
            input,
            place,
        );
        self.added_count += 1;
        Ok(())
    }
}

/// Puts a block of so many words last where the next pattern is the first of a block.
fn make_room(words: &mut Vec<u64>, inputs: usize, place: u32) -> Result<(), AllocError>
    ensures ok { OnOk result (HasRoom inputs place words.old.items words.new.items) }
    ensures err { OnErr result (words.new.items ≡ words.old.items) }
{
    if place == 0 {
        let count = words.len().checked_add(inputs).ok_or(AllocError)?;
        words.resize(count, 0)?;
    }
    Ok(())
}

/// Sets this bit of the words from a place on, of each that stands beside a true value.
fn set_bits(words: &mut Vec<u64>, from: usize, input: &[bool], place: u32)
    requires room { length words.old.items ≡ from + length input.now }
    requires place { place < 64 }
    ensures { AreSet from input.now place words.old.items words.new.items }
{
    for (i, truth) in input.iter().enumerate() {
        if *truth {
            words[from + i] |= 1 << place;
        }
    }
}
