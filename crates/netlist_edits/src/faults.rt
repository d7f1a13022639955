ghost use Rattle.std.specs.Prelude.{◌≡◌, option_map};
ghost use Rattle.netlist.specs.Net.{circuit_of};
ghost use Rattle.netlist_edits.specs.Fault.{fault_of, fault_in, set_fault, new_fault, drop_fault, out_fault, no_gate, no_place, no_literal, not_earlier, fanins_fault};

use crate::checks::{has_gate, is_earlier, is_full, is_read, is_there};
use crate::edit::{Edit, has_numbers_of_a_line};
use crate::error::EditErr;
use lits::Side;
use netlist::Net;

/// The first fault of an edit of the net. That memory is refused comes after all of them.
pub fn fault_of(net: &Net, edit: &Edit) -> Option<EditErr>
    ensures { result ≡ fault_of net.now edit.now }
{
    if !has_numbers_of_a_line(edit) {
        return Some(EditErr::BadLine);
    }
    fault_in(net, edit)
}

/// The first fault of an edit whose numbers a line may have.
fn fault_in(net: &Net, edit: &Edit) -> Option<EditErr>
    ensures { result ≡ fault_in net.now edit.now }
{
    match *edit {
        Edit::Set { side, lhs, r0, r1 } => set_fault(net, side, lhs, r0, r1),
        Edit::New {
            side,
            lhs,
            r0,
            r1,
            before,
        } => new_fault(net, side, lhs, r0, r1, before),
        Edit::Remove { side, lhs } => drop_fault(net, side, lhs),
        Edit::Out { side, j, lit } => out_fault(net, side, j, lit),
    }
}

fn set_fault(net: &Net, side: Side, lhs: u32, r0: u32, r1: u32) -> Option<EditErr>
    ensures { result ≡ set_fault (circuit_of net.now side) lhs r0 r1 }
{
    if !has_gate(net, side, lhs) {
        return Some(EditErr::NoGate(lhs));
    }
    fanins_fault(net, side, Some(lhs / 2), r0, r1)
}

fn new_fault(
    net: &Net,
    side: Side,
    lhs: u32,
    r0: u32,
    r1: u32,
    before: Option<u32>,
) -> Option<EditErr>
    ensures { result ≡ new_fault (circuit_of net.now side) lhs r0 r1 before }
{
    if is_full(net, side) {
        return Some(EditErr::GateLimit);
    }
    if is_there(net, side, lhs) {
        return Some(EditErr::Taken(lhs));
    }
    let Some(next) = before else {
        return fanins_fault(net, side, None, r0, r1);
    };
    if !has_gate(net, side, next) {
        return Some(EditErr::NoGate(next));
    }
    fanins_fault(net, side, Some(next / 2), r0, r1)
}

fn drop_fault(net: &Net, side: Side, lhs: u32) -> Option<EditErr>
    ensures { result ≡ drop_fault (circuit_of net.now side) lhs }
{
    if !has_gate(net, side, lhs) {
        return Some(EditErr::NoGate(lhs));
    }
    if is_read(net, side, lhs / 2) {
        return Some(EditErr::InUse(lhs));
    }
    None
}

fn out_fault(net: &Net, side: Side, j: u32, lit: u32) -> Option<EditErr>
    ensures { result ≡ out_fault (circuit_of net.now side) j lit }
{
    if net.circuit(side).outputs().len() <= j as usize {
        return Some(EditErr::NoOutput(j));
    }
    if !is_there(net, side, lit) {
        return Some(EditErr::NoLiteral(lit));
    }
    None
}

/// The first fault of the fanins of a gate that stands right before the gate of a variable, is that gate, or
/// stands last.
fn fanins_fault(net: &Net, side: Side, before: Option<u32>, r0: u32, r1: u32) -> Option<EditErr>
    ensures { result ≡ fanins_fault (circuit_of net.now side) before r0 r1 }
{
    if !is_there(net, side, r0) {
        return Some(EditErr::NoLiteral(r0));
    }
    if !is_there(net, side, r1) {
        return Some(EditErr::NoLiteral(r1));
    }
    if !is_earlier(net, side, before, r0) {
        return Some(EditErr::NotEarlier(r0));
    }
    if !is_earlier(net, side, before, r1) {
        return Some(EditErr::NotEarlier(r1));
    }
    None
}
