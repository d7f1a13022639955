ghost use Rattle.std.specs.Prelude.{◌≡◌};

use crate::entry::Entry;
use lits::{Listed, Step};
use std::alloc::Global;
use std::mem::replace;

/// Makes the entry, which stays the same, take less memory: a book keeps it for long.
pub(crate) fn pack(alloc: Global, entry: &mut Entry)
    ensures { entry.new ≡ entry.old }
{
    match entry {
        Entry::Merge { steps, .. } => pack_steps(alloc, steps),
        Entry::Out { steps, .. } => pack_steps(alloc, steps),
        Entry::Spent { log, .. } => pack_steps(alloc, log),
        Entry::OutSpent { log, .. } => pack_steps(alloc, log),
        Entry::Apart { .. } => {}
        Entry::OutApart { .. } => {}
    }
}

fn pack_steps(alloc: Global, steps: &mut Listed<Step>)
    ensures { steps.new ≡ steps.old }
{
    let mut list = replace(steps, Listed::of(Vec::new(alloc))).into_vec();
    for step in list.iter_mut() {
        step.hints.pack(alloc);
    }
    *steps = Listed::of(list);
}
