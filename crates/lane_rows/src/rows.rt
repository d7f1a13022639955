//! Rows of all nodes, by the simulation in lanes and by the plain one.
ghost use Rattle.std.specs.Prelude.{◌≡◌, length};

use crate::pools::{expect, net_of, seeded};
use netlist::Net;
use std::alloc::Global;
use std::process::Abort;
use word_sim::Pool;
use worked_circuits::{swapped_ands, two_xors};

/// The words of the inputs are those of tools/draws.py and the pattern 10, and both gates are the ANDs of these.
static ROWS: [u64; 10] = [
    u64::MAX,
    1,
    0x0021_3964_d113_e80f,
    1,
    0x3b38_6b74_5518_224d,
    0,
    0x0020_2964_5110_200d,
    0,
    0x0020_2964_5110_200d,
    0,
];

/// Where the first input alone is true.
const INPUT: [bool; 2] = [true, false];

/// One seeded word and a pattern.
#[test]
fn worked_rows(rt: HostRuntime) {
    let alloc = rt.alloc();
    let net = net_of(&rt, alloc, swapped_ands(alloc));
    let mut pool = seeded(&rt, alloc, &net, 1);
    pool.add(&INPUT).expect(&rt, "memory");
    check_worked(&rt, alloc, &net, &pool);
}

fn check_worked(rt: &impl Abort, alloc: Global, net: &Net, pool: &Pool)
    requires { pool.now.inputs ≡ length net.now.a.inputs }
{
    let plain = word_sim::signatures(alloc, net, pool).expect(rt, "memory");
    expect(rt, "plain rows", plain.words() == ROWS.as_slice());
    let lanes = lane_sim::signatures(alloc, net, pool).expect(rt, "memory");
    expect(rt, "65 patterns", lanes.patterns() == 65);
    expect(rt, "rows in lanes", lanes.words() == ROWS.as_slice());
}

/// Compares the rows of both in buffers in which something else stood.
fn check_filled(rt: &impl Abort, alloc: Global, net: &Net, pool: &Pool)
    requires { pool.now.inputs ≡ length net.now.a.inputs }
{
    let count = net.positions() as usize * pool.words() as usize;
    let mut plain = vec![in alloc; 7; count].expect(rt, "memory");
    word_sim::fill(net, pool, plain.as_mut_slice());
    let mut lanes = vec![in alloc; 9; count].expect(rt, "memory");
    lane_sim::fill(net, pool, lanes.as_mut_slice());
    expect(rt, "filled", lanes.as_slice() == plain.as_slice());
}

/// Compares the signatures of both.
pub(crate) fn check_signatures(rt: &impl Abort, alloc: Global, net: &Net, pool: &Pool)
    requires { pool.now.inputs ≡ length net.now.a.inputs }
{
    let plain = word_sim::signatures(alloc, net, pool).expect(rt, "memory");
    let lanes = lane_sim::signatures(alloc, net, pool).expect(rt, "memory");
    expect(rt, "patterns", lanes.patterns() == plain.patterns());
    expect(rt, "signatures", lanes.words() == plain.words());
}

fn check_both(rt: &impl Abort, alloc: Global, net: &Net, pool: &Pool)
    requires { pool.now.inputs ≡ length net.now.a.inputs }
{
    check_filled(rt, alloc, net, pool);
    check_signatures(rt, alloc, net, pool);
}

/// One to nine seeded words of two XORs, and each of these with a pattern more: fewer words than lanes, as many,
/// twice as many, and some over.
#[test]
fn rows_both_ways(rt: HostRuntime) {
    let alloc = rt.alloc();
    let net = net_of(&rt, alloc, two_xors(alloc));
    for words in 1..=9 {
        let mut pool = seeded(&rt, alloc, &net, words);
        check_both(&rt, alloc, &net, &pool);
        pool.add(&INPUT).expect(&rt, "memory");
        check_both(&rt, alloc, &net, &pool);
    }
}
