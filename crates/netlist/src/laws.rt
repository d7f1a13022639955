ghost use Rattle.std.specs.Prelude.{◌↔◌, ◌≡◌, ◌<◌, ℕ, Bool, List, None, length};
ghost use Rattle.lits.specs.Assignment.{IsSatisfiable};
ghost use Rattle.netlist.specs.Circuit.{Aig, output_value};
ghost use Rattle.netlist.specs.Net.{Agree, Differ, IsNet, meets_constraints};
ghost use Rattle.netlist.specs.Unlike.{unlike_of};
ghost use Rattle.netlist.specs.Pairing.{IsMatched, matched_to, unlike_in};
ghost use Rattle.netlist.specs.Miter.{miter_of};
ghost use Rattle.netlist.specs.ByName.{arranged, namesake_value, put_back, unlike_by_name, HasNamesake};

use crate::circuit::Circuit;
use crate::net::Net;
use lits::{Dim, Literal, Side};

/// A law of every net: its two circuits are circuits, with equal numbers of inputs and of outputs.
///
/// It does nothing when it runs.
pub fn is_net(net: &Net)
    ensures { IsNet net.now }
{
    let _circuit = net.circuit(Side::A);
}

/// A law of every net: its miter is satisfiable exactly if some output differs on some admitted input, one on
/// which the constraints of both circuits are true.
///
/// It does nothing when it runs.
#[tactic(auto, using(crate::proofs::SatisfiableMiter::satisfiable))]
pub fn satisfiable_if_different(net: &Net)
    ensures { IsSatisfiable ⟦<Dim as Literal>⟧.opposite (miter_of net.now) ↔ Differ net.now }
{
    is_net(net);
}

/// A law of every net: its miter is unsatisfiable exactly if both circuits agree on every admitted input. Where
/// no input is admitted, they do.
///
/// It does nothing when it runs.
#[tactic(auto, using(crate::proofs::SatisfiableMiter::unsatisfiable))]
pub fn unsatisfiable_if_equal(net: &Net)
    ensures { (¬ IsSatisfiable ⟦<Dim as Literal>⟧.opposite (miter_of net.now)) ↔ Agree net.now }
{
    is_net(net);
}

/// A law of two circuits that are a net by their names: B in A's order has at each input and output what B
/// has under the same name, each output has the value of B's output of that name, and the constraints are
/// true exactly where B's are, for truth values of the inputs that are put under their names.
///
/// It does nothing when it runs.
pub fn same_by_name(a: &Circuit, b: &Circuit)
    requires { unlike_by_name a.now b.now ≡ None }
    ensures inputs { (k : ℕ) → k < length a.now.inputs
        → HasNamesake a.now.names.inputs b.now.names.inputs b.now.inputs (arranged a.now b.now).inputs k }
    ensures outputs { (j : ℕ) → j < length a.now.outputs
        → HasNamesake a.now.names.outputs b.now.names.outputs b.now.outputs (arranged a.now b.now).outputs j }
    ensures values { (bits : List Bool) (j : ℕ) → j < length a.now.outputs
        → output_value (arranged a.now b.now) bits j ≡ namesake_value a.now b.now bits j }
    ensures constraints { (bits : List Bool)
        → meets_constraints (arranged a.now b.now) bits ≡ meets_constraints b.now (put_back a.now b.now bits) }
{
    let _a = a.names();
    let _b = b.names();
}

/// A law of two circuits: where nothing is against their pair, B stands in it as the kind of pairing asks,
/// by position as it is, and by name each of its inputs and outputs where A has its name; nothing else stands
/// so, and nothing is against a pair in which B stands so.
///
/// It does nothing when it runs.
pub fn pairs_are_matched(a: &Circuit, b: &Circuit)
    ensures stands { (by_name : Bool) → unlike_in by_name a.now b.now ≡ None
        → IsMatched by_name a.now b.now (matched_to by_name a.now b.now) }
    ensures alone { (by_name : Bool) (placed : Aig) → IsMatched by_name a.now b.now placed
        → placed ≡ matched_to by_name a.now b.now }
    ensures none_against { (by_name : Bool) (placed : Aig) → IsMatched by_name a.now b.now placed
        → unlike_of a.now placed ≡ None → unlike_in by_name a.now b.now ≡ None }
{
    let _names_of_a = a.names();
    let _names_of_b = b.names();
}
