use crate::circuits::check_fault;
use aiger_file::read;
use byte_scan::AigerErr;
use std::test::*;

static FORMS: [(&[u8], Option<AigerErr>); 9] = [
    (b"aag 3 2 0 1 1\n2\n4\n6\n6 2 4\n", None),
    (b"aig 3 2 0 1 1\n6\n\x02\x02", None),
    (b"", Some(AigerErr::BadHeader)),
    (b"aag", Some(AigerErr::BadHeader)),
    (b"abg 0 0 0 0 0\n", Some(AigerErr::BadHeader)),
    (b"aag\t0 0 0 0 0\n", Some(AigerErr::BadHeader)),
    (b"AAG 0 0 0 0 0\n", Some(AigerErr::BadHeader)),
    // a compressed file
    (b"\x1f\x8b\x08\x00", Some(AigerErr::BadHeader)),
    // the binary form asks for M exactly
    (b"aig 1 0 0 0 0\n", Some(AigerErr::BadHeader)),
];

#[test]
fn the_first_four_bytes_choose(rt: HostRuntime) {
    for (bytes, want) in &FORMS {
        check_fault(&rt, bytes, read(rt.alloc(), bytes).err(), *want);
    }
}
