use crate::checks::check;
use std::alloc::Global;
use std::test::*;
use workload_gen::{Kind, make};

/// Whether the worked example is made, by hand: two gates and an OR, which is a negated AND, in either
/// circuit.
fn is_worked_parity(alloc: Global) -> bool {
    let Ok((chain, tree)) = make(alloc, Kind::Parity, 2) else {
        return false;
    };
    chain.as_slice() == b"aag 5 2 0 1 3\n2\n4\n11\n6 5 2\n8 4 3\n10 9 7\n".as_slice()
        && tree.as_slice() == b"aig 5 2 0 1 3\n11\n\x01\x03\x04\x01\x01\x02".as_slice()
}

#[test]
fn generator(rt: HostRuntime) {
    check(&rt, "a chain and a tree", is_worked_parity(rt.alloc()));
}
