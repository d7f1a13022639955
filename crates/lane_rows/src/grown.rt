//! Rows that are brought up to a pool that has grown.
ghost use Rattle.std.specs.Prelude.{◌≡◌, length, take};
ghost use Rattle.word_sim.specs.Rows.{AreSignatures};

use crate::pools::{expect, net_of, seeded};
use lane_sim::extend;
use netlist::Net;
use std::alloc::Global;
use std::process::Abort;
use word_sim::{Pool, Sigs, signatures};
use worked_circuits::{swapped_ands, two_xors};

/// Puts so many patterns last, of which the first of two has the first input true, and the first of three the second.
fn grow(rt: &impl Abort, net: &Net, pool: &mut Pool, sigs: &Sigs, patterns: u32)
    requires two { pool.old.inputs ≡ 2 }
    requires sigs { AreSignatures net.now (take sigs.now.patterns pool.old.patterns) sigs.now }
    ensures two { pool.new.inputs ≡ 2 }
    ensures sigs { AreSignatures net.now (take sigs.now.patterns pool.new.patterns) sigs.now }
{
    for k in 0..patterns {
        pool.add(&[k % 2 == 0, k % 3 == 0]).expect(rt, "memory");
    }
}

/// Compares the rows with those that the plain simulation makes of the pool anew.
fn check_sigs(rt: &impl Abort, alloc: Global, net: &Net, pool: &Pool, sigs: &Sigs)
    requires { pool.now.inputs ≡ length net.now.a.inputs }
{
    let anew = signatures(alloc, net, pool).expect(rt, "memory");
    expect(rt, "patterns", sigs.patterns() == anew.patterns());
    expect(rt, "rows", sigs.words() == anew.words());
}

/// Lets the pool grow by so many patterns, brings the rows up to it, and compares them.
fn check_grown(
    rt: &impl Abort,
    alloc: Global,
    net: &Net,
    pool: &mut Pool,
    sigs: &mut Sigs,
    patterns: u32,
)
    requires two { pool.old.inputs ≡ 2 }
    requires inputs { length net.now.a.inputs ≡ 2 }
    requires sigs { AreSignatures net.now pool.old.patterns sigs.old }
    ensures two { pool.new.inputs ≡ 2 }
    ensures sigs { AreSignatures net.now pool.new.patterns sigs.new }
{
    grow(rt, net, pool, sigs, patterns);
    extend(alloc, net, pool, sigs).expect(rt, "memory");
    check_sigs(rt, alloc, net, pool, sigs);
}

/// By how many patterns a pool of one word grows each time: one behind a whole word, up to one before the next and up
/// to that; more than a word; nothing; and by more words than go through lanes at a time, behind a part of a word and
/// behind whole ones.
static GROWTHS: [u32; 9] = [1, 62, 1, 1, 90, 0, 420, 3, 512];

fn check_growths(rt: &impl Abort, alloc: Global, net: &Net) {
    let mut pool = seeded(rt, alloc, net, 1);
    let mut sigs = signatures(alloc, net, &pool).expect(rt, "memory");
    for patterns in &GROWTHS {
        check_grown(rt, alloc, net, &mut pool, &mut sigs, *patterns);
    }
}

#[test]
fn rows_of_a_pool_that_grew(rt: HostRuntime) {
    let alloc = rt.alloc();
    check_growths(&rt, alloc, &net_of(&rt, alloc, swapped_ands(alloc)));
    check_growths(&rt, alloc, &net_of(&rt, alloc, two_xors(alloc)));
}
