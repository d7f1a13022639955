ghost use Rattle.std.specs.Prelude.{◌≡◌, IfSome, IfNone, None, Err, MatchResult, OnOk, OnErr, option_map};
ghost use Rattle.netlist_edits.specs.Fault.{fault_of};
ghost use Rattle.netlist_edits.specs.Edited.{edited, gate};
ghost use Rattle.netlist.specs.Circuit.{var_of};

use crate::edit::Edit;
use crate::error::EditErr;
use crate::faults::fault_of;
use netlist::{And, Net};
use std::alloc::{AllocError, Global};

/// Makes an edit of the net, or answers its first fault. Where it answers an error the net is unchanged.
///
/// A net keeps its own allocator, so the one that is handed in isn't used.
pub fn apply(_alloc: Global, net: &mut Net, edit: &Edit) -> Result<(), EditErr>
    ensures fault { IfSome (fault_of net.old edit.now) (λ e. result ≡ Err e) }
    ensures edited { IfNone (fault_of net.old edit.now)
        (MatchResult result (λ _. net.new ≡ edited net.old edit.now) (λ e. e ≡ EditErr.NoMemory)) }
    ensures unchanged { OnErr result (net.new ≡ net.old) }
{
    if let Some(fault) = fault_of(net, edit) {
        return Err(fault);
    }
    make(net, edit)?;
    Ok(())
}

/// Makes an edit that has no fault. Where memory is refused the net is unchanged.
pub fn make(net: &mut Net, edit: &Edit) -> Result<(), AllocError>
    requires { fault_of net.old edit.now ≡ None }
    ensures ok { OnOk result (net.new ≡ edited net.old edit.now) }
    ensures err { OnErr result (net.new ≡ net.old) }
{
    match *edit {
        Edit::Set { side, lhs, r0, r1 } => net.set_gate(side, gate(lhs, r0, r1)),
        Edit::New {
            side,
            lhs,
            r0,
            r1,
            before,
        } => net.put_gate(side, gate(lhs, r0, r1), variable(before)),
        Edit::Remove { side, lhs } => net.drop_gate(side, lhs / 2),
        Edit::Out { side, j, lit } => net.set_output(side, j, lit),
    }
}

/// The gate that a literal names, with its fanins.
fn gate(lhs: u32, r0: u32, r1: u32) -> And
    ensures { result ≡ gate lhs r0 r1 }
{
    And {
        var: lhs / 2,
        left: r0,
        right: r1,
    }
}

/// The variable of a literal that may be named.
fn variable(lit: Option<u32>) -> Option<u32>
    ensures { result ≡ option_map var_of lit }
{
    match lit {
        Some(lit) => Some(lit / 2),
        None => None,
    }
}
