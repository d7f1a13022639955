ghost use Rattle.std.specs.Prelude.{◌<◌, length, IfNone, IfSome};
ghost use Rattle.std.specs.List.{AllByRecursion};
ghost use Rattle.solver_watch.specs.Assuming.{IsChosen};
ghost use Rattle.solver_watch.specs.Choice.{IsAssumption, IsOpenCode, AreNumbered, IsTaken, AreTaken};

use crate::order::Order;
use lits::{Clause, Lit};
use watch_lists::{Trail, flip};

/// What comes next of a target's negations.
#[derive(Clone, Copy)]
pub(crate) enum Assumption {
    /// The negation of this code can be assumed.
    Open(u32),
    /// A literal of the target is true, by this clause.
    Refuted(u64),
    /// All of them are true.
    All,
}

/// The first of the target's negations that isn't true yet.
///
/// They are assumptions as in MiniSat (Eén and Sörensson 2003), each at a level of its own, so that what is
/// learned follows from the base alone and serves later targets.
pub(crate) fn next_assumption(trail: &Trail, target: &Clause<Lit>) -> Assumption
    requires numbered { AreNumbered trail.now target.now }
    requires chosen { AllByRecursion (IsChosen target.now trail.now.last) trail.now.puts }
    ensures { IsAssumption trail.now target.now result }
{
    for lit in target.lits() {
        let Some(code) = trail.code(*lit) else {
            unreachable!();
        };
        match trail.place(code) {
            Some(place) => match trail.lits()[place].by {
                Some(by) => return Assumption::Refuted(by),
                None => unreachable!(),
            },
            None => {}
        }
        let negation = flip(code);
        if !trail.is_true(negation) {
            return Assumption::Open(negation);
        }
    }
    Assumption::All
}

/// A literal to decide: that of the variable that conflicts met most of late, false. None where all
/// variables are taken.
pub(crate) fn choose(trail: &Trail, order: &mut Order) -> Option<u32>
    ensures some { IfSome result (IsOpenCode trail.now) }
    ensures none { IfNone result (AreTaken trail.now) }
{
    for _ in 0..order.len() {
        if let Some(code) = popped(trail, order) {
            return Some(code);
        }
    }
    first_free(trail)
}

/// What the order hands out next, where it is free. The order may hold variables that have a value, and
/// nothing is claimed of what it hands out.
fn popped(trail: &Trail, order: &mut Order) -> Option<u32>
    ensures { IfSome result (IsOpenCode trail.now) }
{
    let variable = order.pop()?;
    if (variable as usize) < trail.variables() {
        free_code(trail, variable)
    } else {
        None
    }
}

/// The variable's negation, where it is free.
fn free_code(trail: &Trail, variable: u32) -> Option<u32>
    requires { variable < length trail.now.nodes }
    ensures some { IfSome result (IsOpenCode trail.now) }
    ensures none { IfNone result (IsTaken trail.now variable) }
{
    let _variables = trail.variables();
    let code = 2 * variable + 1;
    if trail.is_free(code) {
        Some(code)
    } else {
        None
    }
}

/// The negation of the first free variable. It is looked for only where the order has none left, so
/// that nothing rests on the order.
fn first_free(trail: &Trail) -> Option<u32>
    ensures some { IfSome result (IsOpenCode trail.now) }
    ensures none { IfNone result (AreTaken trail.now) }
{
    for variable in 0..trail.variables() {
        if let Some(code) = free_code(trail, variable as u32) {
            return Some(code);
        }
    }
    None
}
