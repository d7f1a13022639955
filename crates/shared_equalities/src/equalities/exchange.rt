use crate::equalities::{Equalities, Equality, Extent};
use lits::{Hints, Ref, Step};
use search_parts::{at, count};
use std::alloc::{AllocError, Global};

impl Equality {
    /// The same where its steps from one place on stand from another place on.
    fn moved(self, from: u32, to: u32) -> Equality {
        Equality {
            there: moved_place(self.there, from, to),
            back: moved_place(self.back, from, to),
            ..self
        }
    }
}

impl Equalities {
    /// Hands out what was found since the exchange before, and takes in what others have handed out since.
    pub fn exchange(&mut self, alloc: Global, all: &mut Equalities) -> Result<(), AllocError> {
        let is_alone = all.len() == self.shared.steps
            && count(all.failed.len()) == self.shared.failed;
        self.hand_out(alloc, all)?;
        if !is_alone {
            self.take_back();
            self.take_in(alloc, all)?;
        }
        self.shared = self.extent();
        Ok(())
    }

    /// Puts what was found since the exchange before behind what is shared.
    fn hand_out(&self, alloc: Global, all: &mut Equalities) -> Result<(), AllocError> {
        let (from, to) = (self.shared.steps, all.len());
        for place in from..self.len() {
            if let Some(step) = self.steps.get(place as usize) {
                all.steps.push(moved_step(alloc, step, from, to)?)?;
            }
        }
        for number in self.shared.found..count(self.found.len()) {
            let place = at(&self.found, number);
            if let (Some(equality), None) = (self.target_at(place), all.target_at(place)) {
                all.note(place, equality.moved(from, to))?;
            }
        }
        for number in self.shared.failed..count(self.failed.len()) {
            let position = at(&self.failed, number);
            all.note_tried(position, self.tried(position))?;
        }
        Ok(())
    }

    /// Forgets what was found since the exchange before.
    fn take_back(&mut self) {
        for number in self.shared.found..count(self.found.len()) {
            let place = at(&self.found, number);
            self.set_target(place, None);
        }
        self.steps.truncate(self.shared.steps as usize);
        self.found.truncate(self.shared.found as usize);
        self.failed.truncate(self.shared.failed as usize);
    }

    /// Takes what is shared behind what was so at the exchange before.
    fn take_in(&mut self, alloc: Global, all: &Equalities) -> Result<(), AllocError> {
        for place in self.len()..all.len() {
            if let Some(step) = all.steps.get(place as usize) {
                self.steps.push(moved_step(alloc, step, 0, 0)?)?;
            }
        }
        for number in count(self.found.len())..count(all.found.len()) {
            let place = at(&all.found, number);
            if let Some(equality) = all.target_at(place) {
                self.note(place, equality)?;
            }
        }
        for number in count(self.failed.len())..count(all.failed.len()) {
            let position = at(&all.failed, number);
            self.note_tried(position, all.tried(position))?;
        }
        Ok(())
    }

    /// How long the lists are.
    fn extent(&self) -> Extent {
        Extent {
            steps: self.len(),
            found: count(self.found.len()),
            failed: count(self.failed.len()),
        }
    }
}

/// The place of a step where those from one place on stand from another place on.
fn moved_place(place: u32, from: u32, to: u32) -> u32 {
    match place.checked_sub(from) {
        Some(behind) => to.saturating_add(behind),
        None => place,
    }
}

/// A copy of a step where the steps from one place on stand from another place on.
fn moved_step(alloc: Global, step: &Step, from: u32, to: u32) -> Result<Step, AllocError> {
    let mut names = Vec::with_capacity(alloc, step.hints.len())?;
    for place in 0..step.hints.len() {
        names.push(moved_name(step.hints.at(place), from, to))?;
    }
    let mut hints = Hints::of(names);
    hints.pack(alloc);
    let clause = step.clause.copy()?;
    Ok(Step { clause, hints })
}

/// What a hint is called there.
fn moved_name(name: Ref, from: u32, to: u32) -> Ref {
    match name {
        Ref::Own(place) => match u32::try_from(place) {
            Ok(place) => Ref::Own(u64::from(moved_place(place, from, to))),
            Err(_) => name,
        },
        _ => name,
    }
}
