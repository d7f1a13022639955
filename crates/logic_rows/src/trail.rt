//! Walks of `Trail`, as lines of text: what is done to a trail, and what it has to be then.
use crate::clauses::{Word, clause, expect, parts};
use lits::{Clause, Lit, Literal, Node};
use std::alloc::Global;
use std::process::Abort;
use watch_lists::{Put, Trail, flip};

/// Adds the clause, where there are no decisions.
fn add(rt: &impl Abort, trail: &mut Trail, clause: &Clause<Lit>) {
    expect(rt, "no decision", trail.level() == 0);
    trail.add(clause).expect(rt, "memory");
}

/// Adds the text's clauses.
fn add_all(rt: &impl Abort, alloc: Global, trail: &mut Trail, text: &str) {
    for part in text.split_terminator(';') {
        add(rt, trail, &clause(rt, alloc, part));
    }
}

/// Decides the literal, where propagation negates nothing and it is free; whether it is so.
fn decide(rt: &impl Abort, trail: &mut Trail, word: &str) -> bool {
    if trail.propagate().expect(rt, "memory").is_some() {
        return false;
    }
    let lit = Lit::read(word).expect(rt, "a literal");
    let code = trail.code(lit).expect(rt, "a code");
    if !trail.is_free(code) {
        return false;
    }
    trail.decide_code(code).expect(rt, "memory");
    true
}

/// Whether it was put so: a literal, its level, and the clause that forced it or a dash.
fn is_put(rt: &impl Abort, put: &Put, text: &str) -> bool {
    let (lit, reason) = parts(rt, text.trim(), " ");
    let (level, by) = parts(rt, reason, " ");
    Lit::read(lit) == Some(put.lit) && level.parse() == Ok(put.level) && put.by == by.parse().ok()
}

/// Whether the trail's literals are those of the text.
fn are_put(rt: &impl Abort, puts: &[Put], text: &str) -> bool {
    let mut place = 0;
    for part in text.split_terminator(';') {
        if place >= puts.len() || !is_put(rt, &puts[place], part) {
            return false;
        }
        place += 1;
    }
    place == puts.len()
}

/// Whether there are two levels, three clauses and three variables.
fn has_sizes(trail: &Trail) -> bool {
    trail.level() == 2 && trail.clauses() == 3 && trail.variables() == 3
}

const GATE: Lit = Lit {
    node: Node::Input(3),
    neg: false,
};

/// Whether the code is the first of three literals, and in the third clause.
fn is_first(trail: &Trail, code: u32) -> bool {
    trail.lits().len() == 3
        && trail.clauses() == 3
        && trail.code_at(0) == code
        && trail.clause(2).contains(&code)
}

/// Whether gate 3 alone of two gates has a code, which is right, and true in the first place.
fn has_codes(trail: &Trail) -> bool {
    let Some(code) = trail.code(GATE) else {
        return false;
    };
    trail.code(GATE.not()) == Some(flip(code))
        && trail
            .code(Lit {
                node: Node::Input(4),
                neg: false,
            })
            .is_none()
        && trail.lit(code) == GATE
        && trail.is_true(code)
        && trail.place(code) == Some(0)
        && is_first(trail, code)
}

/// Whether propagation is quiet, or clashes in one of the first two clauses, as it is said.
fn propagates(rt: &impl Abort, trail: &mut Trail, what: &str) -> bool {
    match trail.propagate().expect(rt, "memory") {
        None => what == "quiet",
        Some(number) => what == "clash" && number < 2,
    }
}

/// Begins a walk on a new trail.
fn begin(rt: &impl Abort, alloc: Global, trail: &mut Trail) {
    *trail = Trail::new(alloc).expect(rt, "memory");
}

/// Makes the move of the line; whether it went as it says.
fn goes(rt: &impl Abort, alloc: Global, trail: &mut Trail, line: &str) -> bool {
    let (word, text) = line.split_once(' ').unwrap_or((line, ""));
    match word {
        "has" => are_put(rt, trail.lits(), text),
        "decide" => decide(rt, trail, text),
        "quiet" | "clash" => propagates(rt, trail, word),
        "sizes" => has_sizes(trail),
        "codes" => has_codes(trail),
        _ => goes_on(rt, alloc, trail, word, text),
    }
}

/// The same of a move that can't go otherwise.
fn goes_on(rt: &impl Abort, alloc: Global, trail: &mut Trail, word: &str, text: &str) -> bool {
    match word {
        "new" => begin(rt, alloc, trail),
        "add" => add_all(rt, alloc, trail, text),
        "back" => trail.back(text.parse().expect(rt, "a level")),
        _ => return false,
    }
    true
}

/// Makes all moves.
fn walk(rt: &impl Abort, alloc: Global, mut trail: Trail) {
    for line in WALKS.lines() {
        expect(rt, line, goes(rt, alloc, &mut trail, line));
    }
}

#[test]
fn walks(rt: HostRuntime) {
    walk(
        &rt,
        rt.alloc(),
        Trail::new(rt.alloc()).expect(&rt, "memory"),
    );
}

/// What a trail has is each literal with its level, and with the clause that forced it.
///
/// In the fourth walk other literals are decided after a step back, with the watches that the first ones
/// left. In the fifth are two clauses over three literals whose watched literals become false together: the
/// one that is named is wholly negated. The clause that is learned of it forces its literal.
const WALKS: &str = "\
new closure
add 0 -1; 1;
quiet
has 1 0 1; 0 0 0;
new closure that clashes
add 0; -0;
clash
new gate of both inputs, which are decided
add -3 1 1; -3 2 2; 3 -1 -2;
decide 1
quiet
decide 2
quiet
has 1 1 -; 2 2 -; 3 2 2;
sizes
new step back
add -3 1 1; -3 2 2; 3 -1 -2;
decide 1
quiet
decide 2
quiet
back 1
has 1 1 -;
decide -3
quiet
has 1 1 -; -3 2 -; -2 2 2;
back 0
has 
new negated clause
add 1 2 3; 1 2 -3;
decide -1
quiet
has -1 1 -;
decide -2
clash
back 1
back 0
add 1 2 2;
decide -1
quiet
has -1 1 -; 2 1 2;
new codes
add -3 1 1; -3 2 2; 3 -1 -2;
decide 3
quiet
codes
";
