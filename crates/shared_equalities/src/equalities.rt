ghost use Rattle.std.specs.Prelude.{◌≡◌, ◌++◌, ◌-◌, ◌^◌, [], length, min, OnOk};

use lits::{Hints, Ref, Step};
use search_parts::{at, count, put};
use std::alloc::{AllocError, Global};

mod exchange;

/// Equalities of nodes that the book doesn't have, with the steps that show them.
///
/// A merge may have no more steps than the budget of the sweep allows. A pair that takes more stays open, and
/// with it most pairs above. The proof of an output may be much longer, so it may contain the steps of such
/// equalities: they stand here once, and each proof takes those that it needs.
///
/// Each search has such lists of its own, and the searches of a check share one more: an exchange brings the
/// lists of a search up to date with those, and its steps to other places where others came before them.
#[derive(Drop)]
pub struct Equalities {
    /// For each position what its node is equal to, by the lazy search and behind that by the search of whole cones.
    targets: Vec<Option<Equality>>,
    /// For each position with how many conflicts its node wasn't found to be equal.
    tried: Vec<u32>,
    /// The steps. The hint `Own(k)` is step k of them.
    steps: Vec<Step>,
    /// The places of the targets, and the positions of the nodes that weren't found to be equal, as they came.
    found: Vec<u32>,
    failed: Vec<u32>,
    /// How much of these lists is shared.
    shared: Extent,
}

/// How long the lists of equalities are.
#[derive(Clone, Copy)]
struct Extent {
    steps: u32,
    found: u32,
    failed: u32,
}

const NOTHING: Extent = Extent {
    steps: 0,
    found: 0,
    failed: 0,
};

/// What a node is equal to.
#[derive(Clone, Copy)]
pub struct Equality {
    /// The code that it is.
    pub target: u32,
    /// The places of the steps that say so: that the target is true where the node is, and the node where it is.
    pub there: u32,
    pub back: u32,
}

/// Which search found an equality. Each uses its own alone: what the other one shows takes it more steps, and
/// these stand in the proof of each output that rests on it.
#[derive(Clone, Copy)]
pub enum Finder {
    Lazy,
    Whole,
}

impl Equalities {
    /// No equalities, and no tables before the first of them.
    pub fn new(alloc: Global) -> Equalities
        ensures { result.steps.items ≡ [] }
    {
        Equalities {
            targets: Vec::new(alloc),
            tried: Vec::new(alloc),
            steps: Vec::new(alloc),
            found: Vec::new(alloc),
            failed: Vec::new(alloc),
            shared: NOTHING,
        }
    }

    /// Forgets all.
    pub fn forget(&mut self)
        ensures { self.new.steps.items ≡ [] }
    {
        self.targets.clear();
        self.tried.clear();
        self.steps.clear();
        self.found.clear();
        self.failed.clear();
        self.shared = NOTHING;
    }

    /// How many steps there are.
    pub fn len(&self) -> u32
        ensures { result ≡ min (length self.now.steps.items) (2 ^ 32 - 1) }
    {
        count(self.steps.len())
    }

    /// What a search found a node to be equal to.
    pub fn target(&self, finder: Finder, position: u32) -> Option<Equality> {
        self.target_at(place_of(finder, position))
    }

    /// The target at a place.
    fn target_at(&self, place: u32) -> Option<Equality> {
        match self.targets.get(place as usize) {
            Some(target) => *target,
            None => None,
        }
    }

    /// With how many conflicts a node wasn't found to be equal.
    pub fn tried(&self, position: u32) -> u32 {
        at(&self.tried, position)
    }

    /// Notes that a node wasn't found to be equal with so many conflicts.
    pub fn note_tried(&mut self, position: u32, conflicts: u32) -> Result<(), AllocError> {
        let room = (position as usize).saturating_add(1);
        if room > self.tried.len() {
            self.tried.resize(room, 0)?;
        }
        put(&mut self.tried, position, conflicts);
        self.failed.push(position)?;
        Ok(())
    }

    /// Takes the steps of an equality.
    pub fn push(
        &mut self,
        finder: Finder,
        position: u32,
        equality: Equality,
        mut steps: Vec<Step>,
    ) -> Result<(), AllocError>
        ensures { OnOk result (self.new.steps.items ≡ self.old.steps.items ++ steps.items) }
    {
        self.steps.append(&mut steps)?;
        self.note(place_of(finder, position), equality)
    }

    /// Notes what a node is equal to, at a place of the targets.
    fn note(&mut self, place: u32, equality: Equality) -> Result<(), AllocError>
        ensures { self.new.steps.items ≡ self.old.steps.items }
    {
        let room = (place as usize).saturating_add(1);
        if room > self.targets.len() {
            self.targets.resize(room, None)?;
        }
        self.set_target(place, Some(equality));
        self.found.push(place)?;
        Ok(())
    }

    /// Says what target stands at a place.
    fn set_target(&mut self, place: u32, target: Option<Equality>)
        ensures { self.new.steps.items ≡ self.old.steps.items }
    {
        let place = place as usize;
        if place < self.targets.len() {
            self.targets[place] = target;
        }
    }

    /// The steps of a proof, behind the steps of the equalities that they lead to.
    pub fn proof(&self, alloc: Global, steps: &[Step]) -> Result<Vec<Step>, AllocError> {
        let mut numbers = vec![in alloc; 0; self.steps.len()]?;
        let many = number(&mut numbers, &self.steps, steps);
        numbered(alloc, &self.steps, steps, &numbers, many)
    }
}

/// The place of the target that a search found for a position.
fn place_of(finder: Finder, position: u32) -> u32 {
    match finder {
        Finder::Lazy => position.wrapping_mul(2),
        Finder::Whole => position.wrapping_mul(2) | 1,
    }
}

/// Numbers the steps of the equalities, from 1, that a proof leads to, and tells how many these are.
fn number(numbers: &mut [u32], known: &[Step], proof: &[Step]) -> u32 {
    for step in proof {
        mark_hints(numbers, step);
    }
    for place in (0..count(known.len())).rev() {
        if at(numbers, place) > 0 {
            if let Some(step) = known.get(place as usize) {
                mark_hints(numbers, step);
            }
        }
    }
    number_marked(numbers)
}

/// The steps of the equalities that have a number, of which there are so many, and behind them those of a
/// proof.
fn numbered(
    alloc: Global,
    known: &[Step],
    steps: &[Step],
    numbers: &[u32],
    many: u32,
) -> Result<Vec<Step>, AllocError> {
    let mut proof = Vec::new(alloc);
    for place in 0..count(known.len()) {
        if at(numbers, place) > 0 {
            if let Some(step) = known.get(place as usize) {
                push_renamed(alloc, step, numbers, many, &mut proof)?;
            }
        }
    }
    for step in steps {
        push_renamed(alloc, step, numbers, many, &mut proof)?;
    }
    Ok(proof)
}

/// Puts the step last, with the names that its hints have in a proof, which has so many steps of equalities.
fn push_renamed(
    alloc: Global,
    step: &Step,
    numbers: &[u32],
    many: u32,
    proof: &mut Vec<Step>,
) -> Result<(), AllocError> {
    let hints = Hints::of(names(alloc, &step.hints, numbers, many)?);
    let clause = step.clause.copy()?;
    proof.push(Step { clause, hints })?;
    Ok(())
}

/// What the hints are called in a proof.
fn names(alloc: Global, hints: &Hints, numbers: &[u32], many: u32) -> Result<Vec<Ref>, AllocError> {
    let mut names = Vec::with_capacity(alloc, hints.len())?;
    for place in 0..hints.len() {
        names.push(name(hints.at(place), numbers, many))?;
    }
    Ok(names)
}

/// What a hint is called in a proof: a step of the equalities by its number, and one of the query behind
/// them.
fn name(hint: Ref, numbers: &[u32], many: u32) -> Ref {
    let Ref::Own(place) = hint else {
        return hint;
    };
    let len = u64::from(count(numbers.len()));
    if place >= len {
        return Ref::Own((place - len).saturating_add(u64::from(many)));
    }
    Ref::Own(u64::from(at(numbers, place as u32).saturating_sub(1)))
}

/// Numbers what is marked, from 1, and tells how many these are.
fn number_marked(marks: &mut [u32]) -> u32 {
    let mut many: u32 = 0;
    for number in marks.iter_mut() {
        if *number > 0 {
            many = many.saturating_add(1);
            *number = many;
        }
    }
    many
}

/// Marks the steps that the hints of a step name.
fn mark_hints(marks: &mut [u32], step: &Step) {
    for hint in 0..step.hints.len() {
        if let Ref::Own(place) = step.hints.at(hint) {
            if let Ok(place) = u32::try_from(place) {
                put(marks, place, 1);
            }
        }
    }
}
