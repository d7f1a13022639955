use crate::draws::{DRAWN, draw, word_at};
use lits::{Lit, Side};
use merged_net::{first_gate, lit_code};
use netlist::Net;
use search_parts::{count, mark};
use std::alloc::{AllocError, Global};

/// Words of patterns for the inputs that the circuits name: first those that are drawn, then those of
/// counterexamples, 64 a word.
///
/// An input that no gate, output or constraint names is false in each pattern and has no words: a file may
/// announce millions of such inputs. Nothing is drawn before there is something to simulate.
#[derive(Drop)]
pub(crate) struct Inputs {
    /// The positions of the inputs that are named, in order.
    named: Vec<u32>,
    /// Word w of the named input of number k stands at w times their number and k.
    words: Vec<u64>,
    /// How many counterexamples there are.
    noted: u32,
}

impl Inputs {
    /// No words yet.
    pub(crate) fn new(alloc: Global) -> Inputs {
        Inputs {
            named: Vec::new(alloc),
            words: Vec::new(alloc),
            noted: 0,
        }
    }

    /// Draws the words behind the first so many for each input of the seed, unless they were drawn already.
    pub(crate) fn prepare(
        &mut self,
        alloc: Global,
        net: &Net,
        seed: u64,
        words: u32,
    ) -> Result<(), AllocError> {
        if !self.words.is_empty() {
            return Ok(());
        }
        list_named(alloc, &mut self.named, net)?;
        let before = u64::from(first_gate(net)).saturating_mul(u64::from(words));
        let many = self.many();
        draw(&mut self.words, many, seed, before)
    }

    /// How many inputs are named.
    pub(crate) fn many(&self) -> u32 {
        count(self.named.len())
    }

    /// Their positions.
    pub(crate) fn named(&self) -> &[u32] {
        self.named.as_slice()
    }

    /// The words.
    pub(crate) fn words(&self) -> &[u64] {
        self.words.as_slice()
    }

    /// Forgets the counterexamples.
    pub(crate) fn forget(&mut self) {
        self.noted = 0;
        self.words
            .truncate(self.named.len().saturating_mul(DRAWN as usize));
    }

    /// Takes a counterexample. Tells in which word it is, and whether that is full.
    pub(crate) fn note(&mut self, input: &[bool]) -> Result<(u32, bool), AllocError> {
        let bit = self.noted % 64;
        let word = DRAWN.saturating_add(self.noted / 64);
        let first = self.named.len().saturating_mul(word as usize);
        if bit == 0 {
            let len = first.saturating_add(self.named.len());
            self.words.resize(len, 0)?;
        }
        set_bits(&mut self.words, first, &self.named, 1 << bit, input);
        self.noted = self.noted.saturating_add(1);
        Ok((word, bit == 63))
    }

    /// The truth values of a net's inputs in a pattern.
    pub(crate) fn pattern(
        &self,
        alloc: Global,
        net: &Net,
        pattern: u32,
    ) -> Result<Vec<bool>, AllocError> {
        let all = first_gate(net).saturating_sub(1);
        let mut input = vec![in alloc; false; all as usize]?;
        let first = self.named.len().saturating_mul((pattern / 64) as usize);
        put_values(&mut input, &self.named, &self.words, first, pattern % 64);
        Ok(input)
    }
}

/// Lists the positions of the inputs that a gate, an output or a constraint names.
fn list_named(alloc: Global, named: &mut Vec<u32>, net: &Net) -> Result<(), AllocError> {
    let first = first_gate(net);
    let mut marks = vec![in alloc; false; first as usize]?;
    for gate in net.all_fanins() {
        let _ = mark(&mut marks, gate.left.position, true);
        let _ = mark(&mut marks, gate.right.position, true);
    }
    mark_ends(&mut marks, net, Side::A);
    mark_ends(&mut marks, net, Side::B);
    for position in 1..first {
        if mark(&mut marks, position, true) {
            named.push(position)?;
        }
    }
    Ok(())
}

/// Marks the nodes of one side's outputs and constraints.
fn mark_ends(marks: &mut [bool], net: &Net, side: Side) {
    for output in 0..net.outputs() {
        mark_lit(marks, net, net.output(side, output));
    }
    for k in 0..count(net.circuit(side).constraints().len()) {
        mark_lit(marks, net, net.constraint(side, k));
    }
}

/// Marks the node of a literal.
fn mark_lit(marks: &mut [bool], net: &Net, lit: Option<Lit>) {
    if let Some(lit) = lit {
        if let Some(code) = lit_code(net, lit) {
            let _ = mark(marks, code / 2, true);
        }
    }
}

/// Sets a bit of the words from a place on, one for each input that is named, where the input is true. Input
/// k stands at position k + 1.
fn set_bits(words: &mut [u64], first: usize, named: &[u32], bit: u64, input: &[bool]) {
    for (k, position) in named.iter().enumerate() {
        let place = first.saturating_add(k);
        if is_true(input, position.saturating_sub(1)) && place < words.len() {
            words[place] |= bit;
        }
    }
}

/// Whether the input of this index is true.
fn is_true(input: &[bool], index: u32) -> bool {
    match input.get(index as usize) {
        Some(value) => *value,
        None => false,
    }
}

/// Puts the values of the named inputs in one bit of the words from a place on.
fn put_values(input: &mut [bool], named: &[u32], words: &[u64], first: usize, bit: u32) {
    for (k, position) in named.iter().enumerate() {
        let word = word_at(words, first.saturating_add(k));
        if (word >> (bit % 64)) & 1 == 1 {
            let _ = mark(input, position.saturating_sub(1), true);
        }
    }
}
