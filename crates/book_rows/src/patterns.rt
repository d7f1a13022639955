ghost use Rattle.std.specs.Prelude.{◌≡◌, ◌≤◌, ◌<◌, length};
ghost use Rattle.std.specs.Bool.{OnTrue};

use crate::pairs::{Case, check, expect, net_of, swapped_ands};
use lits::Side;
use netlist::Net;
use std::alloc::Global;
use std::process::Abort;
use word_sim::{Pool, Sigs, fill, signatures};
use worked_circuits::one_gate;

/// A pool of one seeded word; a pattern that is added opens the next word.
#[test]
fn seeded_pool(rt: HostRuntime) {
    let pool = Pool::seeded(rt.alloc(), 7, 1, 2);
    check_seeded(&rt, &mut pool.expect(&rt, "memory"));
}

fn has_size(pool: &Pool, patterns: u64, words: u32) -> bool {
    pool.patterns() == patterns && pool.words() == words
}

fn check_seeded(rt: &impl Abort, pool: &mut Pool)
    requires { pool.old.inputs ≡ 2 }
{
    expect(rt, "two inputs", pool.inputs() == 2);
    expect(rt, "one word", has_size(pool, 64, 1));
    pool.add(&INPUT).expect(rt, "memory");
    expect(rt, "one word and a pattern", has_size(pool, 65, 2));
}

/// Where the first input alone is true.
const INPUT: [bool; 2] = [true, false];

/// Of two seeded words and a pattern, of which the words were seen: the first word, and the pattern.
#[test]
fn part_of_pool(rt: HostRuntime) {
    let alloc = rt.alloc();
    let pool = Pool::seeded(alloc, 7, 2, 2);
    check_part(&rt, alloc, &mut pool.expect(&rt, "memory"));
}

fn check_part(rt: &impl Abort, alloc: Global, pool: &mut Pool)
    requires { pool.old.inputs ≡ 2 }
{
    pool.add(&INPUT).expect(rt, "memory");
    assert!(rt; pool.patterns() == 129);
    let part = pool.part(alloc, 128, 1).expect(rt, "memory");
    expect(rt, "a word and a pattern", part.patterns() == 65);
}

/// Whether a pattern has a truth value for each input.
fn fits(net: &Net, pool: &Pool) -> bool
    ensures { OnTrue result (pool.now.inputs ≡ length net.now.a.inputs) }
{
    pool.inputs() as usize == net.circuit(Side::A).inputs().len()
}

/// One seeded word, and as pattern 64 the input 10.
fn pool(rt: &impl Abort, alloc: Global, net: &Net) -> Pool
    ensures { result.inputs ≡ length net.now.a.inputs }
{
    let mut pool = Pool::seeded(alloc, 7, 1, 2).expect(rt, "memory");
    pool.add(&INPUT).expect(rt, "memory");
    assert!(rt; fits(net, &pool));
    pool
}

/// The words of the inputs are those of tools/draws.py, the others what C's operators make of them.
const ROWS: [[u64; 2]; 5] = [
    [u64::MAX, 1],
    [0x0021_3964_d113_e80f, 1],
    [0x3b38_6b74_5518_224d, 0],
    [0x0020_2964_5110_200d, 0],
    [0x0020_2964_5110_200d, 0],
];

fn is_row(sigs: &Sigs, position: u32) -> bool
    requires row { position < 5 }
    requires rows { 5 ≤ length sigs.now.rows }
{
    sigs.row(position) == ROWS[position as usize].as_slice()
}

fn check_rows(rt: &impl Abort, sigs: &Sigs)
    requires { 5 ≤ length sigs.now.rows }
{
    expect(rt, "row 0", is_row(sigs, 0));
    expect(rt, "row 1", is_row(sigs, 1));
    expect(rt, "row 2", is_row(sigs, 2));
    expect(rt, "row 3", is_row(sigs, 3));
    expect(rt, "row 4", is_row(sigs, 4));
}

/// The rows of five nodes.
struct RowByRow;

impl Case for RowByRow {
    fn check<A: Abort>(&self, rt: &A, alloc: Global, net: &Net) {
        let sigs = signatures(alloc, net, &pool(rt, alloc, net)).expect(rt, "memory");
        expect(rt, "65 patterns", sigs.patterns() == 65);
        assert!(rt; net.positions() >= 5);
        check_rows(rt, &sigs);
    }
}

#[test]
fn rows_of_swapped_ands(rt: HostRuntime) {
    let alloc = rt.alloc();
    check(&rt, alloc, swapped_ands(&rt, alloc), &RowByRow);
}

const ROWS_OF_COMPLEMENTS: [u64; 10] = [
    u64::MAX,
    1,
    0x0021_3964_d113_e80f,
    1,
    0x3b38_6b74_5518_224d,
    0,
    0xc4c6_848b_2ae4_15b0,
    0,
    0xc4c7_948b_aae7_ddb2,
    1,
];

/// The rows of all nodes in one buffer.
fn filled(rt: &impl Abort, alloc: Global, net: &Net, pool: &Pool) -> Vec<u64>
    requires { pool.now.inputs ≡ length net.now.a.inputs }
{
    let count = net.positions() as usize * pool.words() as usize;
    let mut rows = vec![in alloc; 7; count].expect(rt, "memory");
    fill(net, pool, rows.as_mut_slice());
    rows
}

/// The rows of all nodes in one buffer.
struct OneBuffer;

impl Case for OneBuffer {
    fn check<A: Abort>(&self, rt: &A, alloc: Global, net: &Net) {
        let rows = filled(rt, alloc, net, &pool(rt, alloc, net));
        let are_so = rows.as_slice() == ROWS_OF_COMPLEMENTS.as_slice();
        expect(rt, "the rows", are_so);
    }
}

/// Rows of gates over complements and over the constant, in one buffer; the bits behind pattern 64 are
/// cleared.
#[test]
fn rows_of_complements(rt: HostRuntime) {
    let alloc = rt.alloc();
    let net = net_of(&rt, alloc, one_gate(alloc, 3, 5), one_gate(alloc, 1, 5));
    check(&rt, alloc, net, &OneBuffer);
}
