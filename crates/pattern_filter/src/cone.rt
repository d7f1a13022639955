use crate::draws::word_at;
use merged_net::{code_of, first_gate, root_of};
use netlist::Net;
use search_parts::{at, count, put};
use std::alloc::{AllocError, Global};

/// How many words of patterns are simulated in one pass over the gates: with four, reading a gate costs
/// about as much as its words do.
pub(crate) const WORDS: u32 = 4;

/// The values of a node on the words of a pass.
pub(crate) type Row = [u64; 4];

/// Two nodes that are compared, in codes of positions, and later of rows.
#[derive(Clone, Copy)]
pub(crate) struct Pair {
    pub(crate) first: u32,
    pub(crate) second: u32,
}

/// A gate of the cone: the codes of the rows that it is the AND of.
#[derive(Clone, Copy)]
struct Gate {
    left: u32,
    right: u32,
}

/// What some pairs of nodes stand on, gates over the roots of their fanins, and a row of values for each.
///
/// A merged gate has no row, and no gate has one that no pair asks for: late rounds ask for few pairs, and in
/// a pair of equal circuits half of all gates are merged by their structure. Row 0 is the constant's, then
/// come inputs, then gates, each in the order of positions.
#[derive(Drop)]
pub(crate) struct Cone {
    /// For each position the number of its row, and 1; 0 where it isn't in the cone.
    places: Vec<u32>,
    /// For each row of an input its number among the inputs that are named.
    inputs: Vec<u32>,
    gates: Vec<Gate>,
    rows: Vec<Row>,
}

impl Cone {
    /// The cone of nothing, without tables.
    pub(crate) fn new(alloc: Global) -> Cone {
        Cone {
            places: Vec::new(alloc),
            inputs: Vec::new(alloc),
            gates: Vec::new(alloc),
            rows: Vec::new(alloc),
        }
    }

    /// Takes the cone of these pairs, which then name rows. The named inputs are given by their positions.
    pub(crate) fn take(
        &mut self,
        net: &Net,
        roots: &[u32],
        named: &[u32],
        pairs: &mut [Pair],
    ) -> Result<(), AllocError> {
        self.inputs.clear();
        self.gates.clear();
        self.rows.clear();
        let last = begin(&mut self.places, net, pairs)?;
        let first = first_gate(net);
        mark_cone(&mut self.places, net, roots, first, last);
        put(&mut self.places, 0, 1);
        let next = number_inputs(&mut self.inputs, &mut self.places, named)?;
        let next = number_gates(
            &mut self.gates,
            &mut self.places,
            net,
            roots,
            Part { first, last, next },
        )?;
        self.rows.resize(next as usize, [0; 4])?;
        name_rows(&self.places, pairs);
        Ok(())
    }

    /// The number of the row of a position, if it has one.
    pub(crate) fn place(&self, position: u32) -> Option<u32> {
        match at(&self.places, position) {
            0 => None,
            place => Some(place - 1),
        }
    }

    /// How many rows there are.
    pub(crate) fn len(&self) -> usize {
        self.rows.len()
    }

    /// The rows.
    pub(crate) fn rows(&self) -> &[Row] {
        self.rows.as_slice()
    }

    /// Gives each row its values, where word w of the inputs that are named, so many, stands at w times that
    /// many and the number of the input, for four words from this one on.
    pub(crate) fn simulate(&mut self, words: &[u64], named: u32, word: u32) {
        put_row(&mut self.rows, 0, [u64::MAX; 4]);
        let first = (named as usize).saturating_mul(word as usize);
        fill_inputs(&mut self.rows, &self.inputs, words, first, named as usize);
        let from = count(self.inputs.len()).saturating_add(1);
        fill_gates(&mut self.rows, &self.gates, from);
    }
}

/// The gates from one position to another, and the number of the next row.
#[derive(Clone, Copy)]
struct Part {
    first: u32,
    last: u32,
    next: u32,
}

/// Marks the nodes of the pairs alone. Tells the last of their positions.
fn begin(places: &mut Vec<u32>, net: &Net, pairs: &[Pair]) -> Result<u32, AllocError> {
    places.clear();
    places.resize(net.positions() as usize, 0)?;
    let mut last = 0;
    for pair in pairs {
        put(places, pair.first / 2, 1);
        put(places, pair.second / 2, 1);
        last = last.max(pair.first / 2).max(pair.second / 2);
    }
    Ok(last)
}

/// Marks what the marked gates of this part stand on.
fn mark_cone(places: &mut [u32], net: &Net, roots: &[u32], first: u32, last: u32) {
    let fanins = net.all_fanins();
    for before in 0..last.saturating_add(1).saturating_sub(first) {
        let position = last.saturating_sub(before);
        if at(places, position) != 0 {
            if let Some(gate) = fanins.get(position.saturating_sub(first) as usize) {
                put(places, root_of(roots, code_of(gate.left)) / 2, 1);
                put(places, root_of(roots, code_of(gate.right)) / 2, 1);
            }
        }
    }
}

/// Numbers the inputs that are marked, behind the constant. Tells the number of the next row.
fn number_inputs(
    inputs: &mut Vec<u32>,
    places: &mut [u32],
    named: &[u32],
) -> Result<u32, AllocError> {
    for (k, position) in named.iter().enumerate() {
        if at(places, *position) != 0 {
            inputs.push(count(k))?;
            let number = count(inputs.len());
            put(places, *position, number.saturating_add(1));
        }
    }
    Ok(count(inputs.len()).saturating_add(1))
}

/// Numbers the gates that are marked, and lists them over the rows of their fanins' roots. Tells the number
/// of the next row.
fn number_gates(
    gates: &mut Vec<Gate>,
    places: &mut [u32],
    net: &Net,
    roots: &[u32],
    part: Part,
) -> Result<u32, AllocError> {
    let fanins = net.all_fanins();
    let mut next = part.next;
    for position in part.first..part.last.saturating_add(1) {
        if at(places, position) != 0 {
            if let Some(gate) = fanins.get((position - part.first) as usize) {
                let left = row_code(places, root_of(roots, code_of(gate.left)));
                let right = row_code(places, root_of(roots, code_of(gate.right)));
                gates.push(Gate { left, right })?;
                next = next.saturating_add(1);
                put(places, position, next);
            }
        }
    }
    Ok(next)
}

/// Lets the pairs name rows in place of positions.
fn name_rows(places: &[u32], pairs: &mut [Pair]) {
    for pair in pairs.iter_mut() {
        pair.first = row_code(places, pair.first);
        pair.second = row_code(places, pair.second);
    }
}

/// The code of a row for that of a position.
fn row_code(places: &[u32], code: u32) -> u32 {
    at(places, code / 2).saturating_sub(1).wrapping_mul(2) | (code & 1)
}

/// Gives the inputs' rows their values.
fn fill_inputs(rows: &mut [Row], inputs: &[u32], words: &[u64], first: usize, named: usize) {
    for (k, input) in inputs.iter().enumerate() {
        let place = first.saturating_add(*input as usize);
        let second = place.saturating_add(named);
        let third = second.saturating_add(named);
        let row = [
            word_at(words, place),
            word_at(words, second),
            word_at(words, third),
            word_at(words, third.saturating_add(named)),
        ];
        put_row(rows, k.saturating_add(1), row);
    }
}

/// Gives the rows of the gates their values, from this row on.
fn fill_gates(rows: &mut [Row], gates: &[Gate], from: u32) {
    let mut place = from as usize;
    for gate in gates {
        let left = turned_row(rows, gate.left);
        let right = turned_row(rows, gate.right);
        let row = [
            left[0] & right[0],
            left[1] & right[1],
            left[2] & right[2],
            left[3] & right[3],
        ];
        put_row(rows, place, row);
        place = place.saturating_add(1);
    }
}

/// The values of a code.
#[inline(always)]
pub(crate) fn turned_row(rows: &[Row], code: u32) -> Row {
    let row = match rows.get((code / 2) as usize) {
        Some(row) => *row,
        None => [0; 4],
    };
    let turn = if code & 1 == 1 { u64::MAX } else { 0 };
    [row[0] ^ turn, row[1] ^ turn, row[2] ^ turn, row[3] ^ turn]
}

/// Writes a row.
#[inline(always)]
fn put_row(rows: &mut [Row], place: usize, row: Row) {
    if place < rows.len() {
        rows[place] = row;
    }
}
