ghost use Rattle.std.specs.Prelude.{◌≡◌, ◌+◌, ◌<◌, ◌≤◌, length};
ghost use Rattle.std.specs.Vec.{vec_capacity};
ghost use Rattle.netlist.specs.Miter.{variables_of};
ghost use Rattle.netlist.specs.Starts.{AreStarts, AreFirst, WereStarts};

use crate::pair::CircuitPair;

/// Fills a vector with the numbers of the first clauses of the pair's nodes, in the order of their variables,
/// and last that of the first clause behind them, in the room that the vector has.
pub fn fill_starts(numbers: &mut Vec<u32>, pair: &CircuitPair)
    requires { length (variables_of pair.now) + 1 ≤ vec_capacity numbers.old }
    ensures starts { AreStarts pair.now numbers.new.items }
    ensures room { vec_capacity numbers.new ≡ vec_capacity numbers.old }
{
    numbers.clear();
    fill_behind(numbers, pair, 0, 1);
}

/// Puts the numbers of the nodes from a place on behind those that are there, in the room that the vector
/// has.
fn fill_behind(numbers: &mut Vec<u32>, pair: &CircuitPair, from: u32, next: u32)
    requires room { length (variables_of pair.now) + 1 ≤ vec_capacity numbers.old }
    requires first { AreFirst pair.now numbers.old.items from next }
    requires from { from ≤ length (variables_of pair.now) }
    ensures starts { AreStarts pair.now numbers.new.items }
    ensures room { vec_capacity numbers.new ≡ vec_capacity numbers.old }
{
    let mut next = next;
    for place in from..pair.variables() {
        numbers.push_reserved(next);
        next += pair.clauses_at(place);
    }
    numbers.push_reserved(next);
}

/// Puts the numbers right after the node at a place got other clauses. Only where it got fewer or more does
/// anything change, and then only behind it.
pub fn renumber(numbers: &mut Vec<u32>, pair: &CircuitPair, place: u32)
    requires place { place < length (variables_of pair.now) }
    requires numbers { WereStarts pair.now place numbers.old.items }
    ensures { AreStarts pair.now numbers.new.items }
{
    // says how few variables there are
    let _count = pair.variables();
    let next = numbers[place as usize] + pair.clauses_at(place);
    if numbers[place as usize + 1] != next {
        numbers.truncate(place as usize + 1);
        fill_behind(numbers, pair, place + 1, next);
    }
}
