ghost use Rattle.std.specs.Prelude.{◌≡◌, length, IfOk};

use crate::cone::{Cone, Pair, Row, WORDS, turned_row};
use crate::draws::DRAWN;
use crate::inputs::Inputs;
use lemma_book::{Book, Task};
use lits::{Lit, Side};
use merged_net::{Roots, lit_code, root_of};
use netlist::Net;
use search_parts::{at, count, mark, put};
use std::alloc::{AllocError, Global};

/// How many rows are simulated on a pass of words in the time of a query that ends with a counterexample.
const ROWS: u32 = 2048;

/// Patterns outside the pool: those that are drawn, and the counterexamples of the round. A pair that one of
/// them tells apart needs no query.
///
/// The pool keeps the few patterns that are needed, while these may be many: four words are simulated in a
/// pass, and only for what is asked and its cones, as the book's merges leave them. A round has one sieve,
/// however many workers settle its pairs: what is simulated is simulated once. Nothing is claimed of its
/// patterns: an input that it gives is evaluated, as `apart` does before it hands out an entry.
pub struct PatternFilter {
    seed: u64,
    words: u32,
    roots: Roots,
    inputs: Inputs,
    cone: Cone,
    /// The pairs of the round.
    asked: Vec<Pair>,
    /// For each row of the cone the pattern that tells its pair apart, and 1; 0 where none does.
    found: Vec<u32>,
    /// How many counterexamples weren't simulated yet.
    waiting: u32,
}

// Written out, so that a drop is one call and not one for each field at each exit of a function.
impl Drop for PatternFilter {
    fn drop(self) {
        let PatternFilter {
            seed: _,
            words: _,
            roots: _,
            inputs: _,
            cone: _,
            asked: _,
            found: _,
            waiting: _,
        } = self;
    }
}

impl PatternFilter {
    /// A sieve of a net's pairs. Its patterns are drawn behind the first words of the seed, which are the
    /// pool's. No table is made before something is asked.
    pub fn new(alloc: Global, seed: u64, words: u32) -> PatternFilter {
        PatternFilter {
            seed,
            words,
            roots: Roots::new(alloc),
            inputs: Inputs::new(alloc),
            cone: Cone::new(alloc),
            asked: Vec::new(alloc),
            found: Vec::new(alloc),
            waiting: 0,
        }
    }

    /// Takes the pairs of a round, and looks for those that the patterns tell apart. Tells of each whether it
    /// is to be settled in this round.
    ///
    /// Where patterns tell pairs apart, the first pair of each pattern is, and no other: when the pattern has
    /// joined the pool, all others have better candidates. A pair that is asked above nodes whose own candidates
    /// are wrong may spend its budget, and is never asked again.
    pub fn sift(
        &mut self,
        alloc: Global,
        net: &Net,
        book: &Book,
        tasks: &[Task],
    ) -> Result<Vec<bool>, AllocError>
        ensures { IfOk result (λ due. length due.items ≡ length tasks.now) }
    {
        self.roots.catch_up(net, book)?;
        self.asked.clear();
        list_pairs(&mut self.asked, net, self.roots.codes(), tasks)?;
        self.begin(alloc, net)?;
        self.found.clear();
        self.found.resize(self.cone.len(), 0)?;
        for pass in 0..DRAWN / WORDS {
            self.look(pass * WORDS);
        }
        self.due(alloc, net, tasks)
    }

    /// Of each pair of a round whether it is to be settled in it.
    fn due(&self, alloc: Global, net: &Net, tasks: &[Task]) -> Result<Vec<bool>, AllocError>
        ensures { IfOk result (λ due. length due.items ≡ length tasks.now) }
    {
        let is_telling = tells(&self.found, &self.asked);
        let mut seen = vec![in alloc; false; 64 * DRAWN as usize]?;
        let mut due = Vec::with_capacity(alloc, tasks.len())?;
        for task in tasks {
            let is_due = match self.told(net, task) {
                Some(pattern) => !mark(&mut seen, pattern, true),
                None => !is_telling,
            };
            due.push(is_due)?;
        }
        Ok(due)
    }

    /// Takes a counterexample of the round. When enough of them wait for what a pass costs, or a word is full, the
    /// word is simulated.
    pub fn note(&mut self, input: &[bool]) -> Result<(), AllocError> {
        let (word, is_full) = self.inputs.note(input)?;
        self.waiting = self.waiting.saturating_add(1);
        if is_full || self.waiting.saturating_mul(ROWS) >= count(self.cone.len()) {
            self.waiting = 0;
            self.look(word);
        }
        Ok(())
    }

    /// The input of a pattern that seems to tell a pair of the round apart.
    pub fn telling(
        &self,
        alloc: Global,
        net: &Net,
        task: &Task,
    ) -> Result<Option<Vec<bool>>, AllocError> {
        match self.told(net, task) {
            Some(pattern) => Ok(Some(self.inputs.pattern(alloc, net, pattern)?)),
            None => Ok(None),
        }
    }

    /// The input of a drawn pattern that seems to be admitted and on which an output seems to differ: of the
    /// first such word the least such output. Nothing is simulated where the book's merges lead both sides of
    /// each output to one root.
    pub fn difference(
        &mut self,
        alloc: Global,
        net: &Net,
        book: &Book,
    ) -> Result<Option<Vec<bool>>, AllocError> {
        self.roots.catch_up(net, book)?;
        self.asked.clear();
        list_outputs(&mut self.asked, net, self.roots.codes())?;
        let outputs = self.asked.len();
        if outputs == 0 {
            return Ok(None);
        }
        list_constraints(&mut self.asked, net, self.roots.codes())?;
        self.begin(alloc, net)?;
        for pass in 0..DRAWN / WORDS {
            let word = pass * WORDS;
            self.simulate(word);
            if let Some(bit) = first_difference(self.cone.rows(), &self.asked, outputs) {
                let pattern = word.saturating_mul(64).saturating_add(bit);
                return Ok(Some(self.inputs.pattern(alloc, net, pattern)?));
            }
        }
        Ok(None)
    }

    /// Makes rows for what the pairs stand on.
    fn begin(&mut self, alloc: Global, net: &Net) -> Result<(), AllocError> {
        if !self.asked.is_empty() {
            self.inputs.prepare(alloc, net, self.seed, self.words)?;
        }
        self.inputs.forget();
        self.waiting = 0;
        let named = self.inputs.named();
        self.cone
            .take(net, self.roots.codes(), named, &mut self.asked)
    }

    /// Simulates a pass of words from this one on, and notes the pairs that they tell apart.
    fn look(&mut self, word: u32) {
        self.simulate(word);
        compare(&mut self.found, &self.asked, self.cone.rows(), word);
    }

    /// Gives each row its values on a pass of words from this one on.
    fn simulate(&mut self, word: u32) {
        let many = self.inputs.many();
        self.cone.simulate(self.inputs.words(), many, word);
    }

    /// The pattern that tells a pair of the round apart.
    fn told(&self, net: &Net, task: &Task) -> Option<u32> {
        let place = self.cone.place(net.position(task.node)?)?;
        match at(&self.found, place) {
            0 => None,
            pattern => Some(pattern - 1),
        }
    }
}

/// Lists the pairs of a round that are in the net.
fn list_pairs(
    asked: &mut Vec<Pair>,
    net: &Net,
    roots: &[u32],
    tasks: &[Task],
) -> Result<(), AllocError> {
    for task in tasks {
        let pair = (net.position(task.node), lit_code(net, task.lit));
        if let (Some(position), Some(code)) = pair {
            asked.push(Pair {
                first: root_of(roots, position.wrapping_mul(2)),
                second: root_of(roots, code),
            })?;
        }
    }
    Ok(())
}

/// Lists the outputs whose literals have different roots.
fn list_outputs(pairs: &mut Vec<Pair>, net: &Net, roots: &[u32]) -> Result<(), AllocError> {
    for output in 0..net.outputs() {
        let first = root_code(net, roots, net.output(Side::A, output));
        let second = root_code(net, roots, net.output(Side::B, output));
        if first != second {
            pairs.push(Pair { first, second })?;
        }
    }
    Ok(())
}

/// Lists the constraints, each with the constant, which is true.
fn list_constraints(pairs: &mut Vec<Pair>, net: &Net, roots: &[u32]) -> Result<(), AllocError> {
    for side in [Side::A, Side::B] {
        for k in 0..count(net.circuit(side).constraints().len()) {
            pairs.push(Pair {
                first: root_code(net, roots, net.constraint(side, k)),
                second: 0,
            })?;
        }
    }
    Ok(())
}

/// The code of a literal's root; that of the constant where the net hasn't its node.
fn root_code(net: &Net, roots: &[u32], lit: Option<Lit>) -> u32 {
    match lit {
        Some(lit) => match lit_code(net, lit) {
            Some(code) => root_of(roots, code),
            None => 0,
        },
        None => 0,
    }
}

/// The number, in the pass, of an admitted pattern on which an output differs: of the first such word the
/// least such output. The outputs are the first so many pairs, and the constraints the others.
fn first_difference(rows: &[Row], pairs: &[Pair], outputs: usize) -> Option<u32> {
    let admitted = agreement(rows, &pairs[outputs.min(pairs.len())..]);
    for word in 0..WORDS {
        for pair in &pairs[..outputs.min(pairs.len())] {
            let apart = word_of(apart(rows, pair), word) & word_of(admitted, word);
            if apart != 0 {
                return Some(64 * word + apart.trailing_zeros());
            }
        }
    }
    None
}

/// On which patterns of the pass both nodes of each pair have one value.
fn agreement(rows: &[Row], pairs: &[Pair]) -> Row {
    let mut all = [u64::MAX; 4];
    for pair in pairs {
        let row = apart(rows, pair);
        all = [
            all[0] & !row[0],
            all[1] & !row[1],
            all[2] & !row[2],
            all[3] & !row[3],
        ];
    }
    all
}

/// Notes the pairs that the simulated words tell apart, unless they were told apart before.
fn compare(found: &mut [u32], pairs: &[Pair], rows: &[Row], word: u32) {
    for pair in pairs {
        if at(found, pair.first / 2) == 0 {
            if let Some(bit) = first_set(apart(rows, pair)) {
                let pattern = word.saturating_mul(64).saturating_add(bit);
                put(found, pair.first / 2, pattern.saturating_add(1));
            }
        }
    }
}

/// Whether one of the pairs is told apart.
fn tells(found: &[u32], pairs: &[Pair]) -> bool {
    for pair in pairs {
        if at(found, pair.first / 2) != 0 {
            return true;
        }
    }
    false
}

/// On which patterns of the pass the nodes of a pair differ.
fn apart(rows: &[Row], pair: &Pair) -> Row {
    let first = turned_row(rows, pair.first);
    let second = turned_row(rows, pair.second);
    [
        first[0] ^ second[0],
        first[1] ^ second[1],
        first[2] ^ second[2],
        first[3] ^ second[3],
    ]
}

/// The number of the first bit that is set.
fn first_set(row: Row) -> Option<u32> {
    for word in 0..WORDS {
        let bits = word_of(row, word);
        if bits != 0 {
            return Some(64 * word + bits.trailing_zeros());
        }
    }
    None
}

/// A word of a row.
#[inline(always)]
fn word_of(row: Row, word: u32) -> u64 {
    if word < WORDS { row[word as usize] } else { 0 }
}
