//! The parts of a search that know nothing of a circuit.
use crate::written::expect;
use search_parts::{ActivityHeap, Backoff, Luby, at, mark, part, put};
use std::alloc::Global;
use std::process::Abort;

/// The number of a text.
fn number(rt: &impl Abort, text: &str) -> u64 {
    text.parse().expect(rt, text)
}

/// After how many more learned clauses the next restart is due.
fn gap(restarts: &mut Luby) -> u64 {
    for learned in 1..1_000_000_u64 {
        if restarts.count() {
            return learned;
        }
    }
    0
}

/// The first 31 numbers of Luby's sequence. A script printed them from the paper's definition: number i is 2^(k-1)
/// where i is 2^k - 1, else that of i - 2^(k-1) + 1, for the k with 2^(k-1) <= i < 2^k - 1.
const LUBY: &str = "1 1 2 1 1 2 4 1 1 2 1 1 2 4 8 1 1 2 1 1 2 4 1 1 2 1 1 2 4 8 16";

#[test]
fn restarts_go_by_lubys_sequence(rt: HostRuntime) {
    for unit in [1, 3, 64] {
        let mut restarts = Luby::new(unit);
        for word in LUBY.split(' ') {
            let wanted = number(&rt, word).saturating_mul(unit);
            expect(&rt, word, gap(&mut restarts) == wanted);
        }
    }
}

/// The first 2^k - 1 numbers of the sequence add up to k times 2^(k-1): they are those of k - 1 twice, and
/// 2^(k-1). So 63 restarts, with a unit of 64, take 64 times 6 times 32 learned clauses.
#[test]
fn sixty_three_restarts_take_so_many_clauses(rt: HostRuntime) {
    let mut restarts = Luby::new(64);
    let mut learned: u64 = 0;
    for _ in 0..63 {
        learned = learned.saturating_add(gap(&mut restarts));
    }
    expect(&rt, "12,288 clauses", learned == 12_288);
}

/// What is done to a heap: a variable more (`g`), a decay (`d`), 4,600 decays (`D`), a variable put (`p3`) or
/// met (`b3`), all taken out (`e`), and what comes out first (`o3`, or `o-` where nothing does).
fn follow(rt: &impl Abort, heap: &mut ActivityHeap, word: &str) {
    match word.as_bytes() {
        [b'g'] => heap.grow().expect(rt, "memory"),
        [b'd'] => heap.decay(),
        [b'D'] => decay_long(heap),
        [b'e'] => heap.empty(),
        [b'p', digit] => heap.put(variable_of(*digit)).expect(rt, "memory"),
        [b'b', digit] => heap.bump(variable_of(*digit)),
        [b'o', b'-'] => expect(rt, word, heap.pop().is_none()),
        [b'o', digit] => expect(rt, word, heap.pop() == Some(variable_of(*digit))),
        _ => expect(rt, word, false),
    }
}

/// The variable of a digit.
fn variable_of(digit: u8) -> u32 {
    u32::from(digit.saturating_sub(b'0'))
}

fn decay_long(heap: &mut ActivityHeap) {
    for _ in 0..4_600 {
        heap.decay();
    }
}

/// Walks of a heap. The first was drawn by a script that keeps the activities as fractions and takes the greatest.
/// The others are by hand.
static WALKS: [&str; 4] = [
    "g g g g g g g g g p0 p1 p2 p3 p4 p5 p6 p7 p8 b2 b0 b8 b0 p3 b6 b3 b6 b1 p0 d b3 b2 b2 d d d d \
b3 b8 o3 d d b8 b5 b7 b3 o8 d b4 d p7 b1 b6 b5 b7 b1 o1 d p5 b5 d d b1 p7 d b4 d p7 b6 p5 b7 b1 b3 \
o6 b3 b7 b7 b4 p6 p4 o7 p6 p2 b2 b3 b2 b0 b8 b5 p8 p0 b8 b6 b7 d b1 p7 b5 d b2 d p0 b3 d b4 p5 b1 \
o7 p7 b4 b1 o7 o4 b2 d b8 b8 p8 b1 d b5 p5 o8 d o2 b3 d o5 o6 b3 o0 b8 b0 p4 b3 d p7 o7 o4 b5 b1 b3 \
b7 d p0 b5 o0 b1 p3 b2 b5 b6 b1 o3 b2 b7 b7 d b8 d b1 d p6 p3 o3 b4 b8 o6 o-",
    // Two conflicts count more than one; one that comes 14 decays later, by 0.95^-14 = 2.05, more than two.
    "g g g p0 p1 p2 b0 b0 b1 o0 o1 o2 p0 p1 p2 d d d d d d d d d d d d d d b2 o2 o0 o1 o-",
    // What was taken out comes back with its activity only when it is put.
    "g g p0 p1 b1 e o- p0 p1 o1 o0 o-",
    // 0.95^-4,600 is above 10^100: all become smaller alike, and the order stays.
    "g g g p0 p1 p2 b2 b1 b1 D b0 b0 d b1 o0 o1 o2 o-",
];

#[test]
fn the_most_active_variable_comes_first(rt: HostRuntime) {
    for walk in WALKS {
        let mut heap = ActivityHeap::new(rt.alloc());
        for word in walk.split(' ') {
            follow(&rt, &mut heap, word);
        }
    }
}

/// Turns of a search: it rests (`.`), fails (`x`) or succeeds (`o`). Its pause after a failure is 1, then 3, 7 and
/// 15, each twice the last and one, and never above 15. A success halves it, and the next turn is due: two make 3
/// of 15, so 7 comes next; four make 0 of 7, and then it is as new.
const TURNS: &str = "x.x...x.......x...............x...............oox.......oooox.x...x";

#[test]
fn a_search_that_fails_rests_longer(rt: HostRuntime) {
    let mut backoff = Backoff::new();
    for turn in TURNS.as_bytes() {
        expect(&rt, "a turn", backoff.is_due() == (*turn != b'.'));
        if *turn != b'.' {
            backoff.note(*turn == b'o');
        }
    }
}

/// Outside a table there is 0, and nothing is written; a part goes as far as the list does.
#[test]
fn tables_are_read_and_written_anywhere(rt: HostRuntime) {
    let mut table: [u32; 3] = [5, 6, 7];
    put(&mut table, 1, 9);
    put(&mut table, 3, 9);
    expect(&rt, "one was written", table == [5, 9, 7]);
    expect(&rt, "read", at(&table, 2) == 7 && at(&table, 3) == 0);
    expect(&rt, "a part", part(&table, 1, 9) == [9, 7].as_slice());
    expect(&rt, "two", part(&table, 0, 2) == [5, 9].as_slice());
    expect(&rt, "no part", part(&table, 4, 1).is_empty());
    let mut marks = [false; 2];
    let (first, again) = (mark(&mut marks, 1, true), mark(&mut marks, 1, false));
    expect(&rt, "a mark", !first && again && marks == [false; 2]);
    expect(&rt, "no mark", !mark(&mut marks, 2, true));
}
