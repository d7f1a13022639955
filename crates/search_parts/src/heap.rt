use std::alloc::{AllocError, Global};

/// How much less a conflict counts than the next one.
const DECAY: f64 = 0.95;

/// Above this all activities are made smaller.
const LARGE: f64 = 1e100;

/// The place of a variable that isn't in the heap.
const ABSENT: usize = usize::MAX;

/// Hands out the variables of a cone, those first that conflicts met most of late (Moskewicz, Madigan, Zhao,
/// Zhang and Malik 2001; the growing step is that of MiniSat, Eén and Sörensson 2003).
///
/// Activities are kept from query to query, and the heap is filled anew. Variables that were put stay in it
/// until they come to its top, so that only those that came out have to come back.
#[derive(Drop)]
pub struct ActivityHeap {
    activity: Vec<f64>,
    /// A binary heap, the variable of the greatest activity at its top.
    heap: Vec<u32>,
    /// Where each variable is in the heap.
    places: Vec<usize>,
    /// What a bump adds.
    step: f64,
}

impl ActivityHeap {
    /// The order of no variable.
    pub fn new(alloc: Global) -> ActivityHeap {
        ActivityHeap {
            activity: Vec::new(alloc),
            heap: Vec::new(alloc),
            places: Vec::new(alloc),
            step: 1.0,
        }
    }

    /// Forgets all variables and keeps the memory.
    pub fn clear(&mut self) {
        self.activity.clear();
        self.heap.clear();
        self.places.clear();
        self.step = 1.0;
    }

    /// Takes in the next variable, which isn't handed out before it is put.
    pub fn grow(&mut self) -> Result<(), AllocError> {
        self.activity.push(0.0)?;
        self.places.push(ABSENT)?;
        Ok(())
    }

    /// Has no variable to hand out. Activities stay.
    pub fn empty(&mut self) {
        for variable in self.heap.as_slice() {
            if let Some(place) = self.places.as_mut_slice().get_mut(*variable as usize) {
                *place = ABSENT;
            }
        }
        self.heap.clear();
    }

    /// Hands out the variable of the greatest activity.
    pub fn pop(&mut self) -> Option<u32> {
        let last = self.heap.pop()?;
        let first = match self.heap.as_mut_slice() {
            [] => last,
            [top, ..] => {
                let first = *top;
                *top = last;
                first
            }
        };
        self.set_place(last, 0);
        self.set_place(first, ABSENT);
        self.sift_down();
        Some(first)
    }

    /// Puts a variable, unless it is there.
    pub fn put(&mut self, variable: u32) -> Result<(), AllocError> {
        if self.place(variable) != ABSENT {
            return Ok(());
        }
        let place = self.heap.len();
        self.heap.push(variable)?;
        self.set_place(variable, place);
        self.sift_up(place);
        Ok(())
    }

    /// Counts a conflict that met the variable.
    pub fn bump(&mut self, variable: u32) {
        let Some(activity) = self.activity.as_mut_slice().get_mut(variable as usize) else {
            return;
        };
        *activity += self.step;
        if *activity > LARGE {
            self.rescale();
        }
        let place = self.place(variable);
        if place != ABSENT {
            self.sift_up(place);
        }
    }

    /// Lets the conflicts so far count less.
    pub fn decay(&mut self) {
        self.step /= DECAY;
    }

    /// Makes all activities smaller alike, so that no sum runs out of the range of floating point; their
    /// order stays (MiniSat).
    fn rescale(&mut self) {
        for activity in self.activity.iter_mut() {
            *activity /= LARGE;
        }
        self.step /= LARGE;
    }

    #[inline(always)]
    fn place(&self, variable: u32) -> usize {
        match self.places.as_slice().get(variable as usize) {
            Some(place) => *place,
            None => ABSENT,
        }
    }

    #[inline(always)]
    fn set_place(&mut self, variable: u32, place: usize) {
        if let Some(slot) = self.places.as_mut_slice().get_mut(variable as usize) {
            *slot = place;
        }
    }

    /// The variable at a place of the heap. No contract keeps the heap, so each look-up allows for a place
    /// that isn't there.
    #[inline(always)]
    fn variable_at(&self, place: usize) -> Option<u32> {
        self.heap.as_slice().get(place).copied()
    }

    #[inline(always)]
    fn activity_of(&self, variable: u32) -> f64 {
        match self.activity.as_slice().get(variable as usize) {
            Some(activity) => *activity,
            None => 0.0,
        }
    }

    /// Writes a variable down at a place of the heap.
    #[inline(always)]
    fn set(&mut self, place: usize, variable: u32) {
        if let Some(slot) = self.heap.as_mut_slice().get_mut(place) {
            *slot = variable;
        }
        self.set_place(variable, place);
    }

    /// Lets the variable at a place rise in the heap, until none above it has less activity.
    ///
    /// Those that it passes come down into the hole that it leaves, and it is written down once, at its last
    /// place.
    fn sift_up(&mut self, place: usize) {
        let Some(variable) = self.variable_at(place) else {
            return;
        };
        let own = self.activity_of(variable);
        let mut at = place;
        for _ in 0..usize::BITS {
            let parent = at.saturating_sub(1) / 2;
            let Some(above) = self.variable_at(parent) else {
                break;
            };
            if at == 0 || own <= self.activity_of(above) {
                break;
            }
            self.set(at, above);
            at = parent;
        }
        self.set(at, variable);
    }

    /// Lets the variable at the top sink to its place, as `sift_up` lets one rise. A heap is never deeper than
    /// its length has bits.
    fn sift_down(&mut self) {
        let Some(variable) = self.variable_at(0) else {
            return;
        };
        let own = self.activity_of(variable);
        let mut at: usize = 0;
        for _ in 0..usize::BITS {
            let Some((place, below)) = self.greater_child(at) else {
                break;
            };
            if own >= self.activity_of(below) {
                break;
            }
            self.set(at, below);
            at = place;
        }
        self.set(at, variable);
    }

    /// The child of a place that has the greater activity, the left one where both have the same.
    #[inline(always)]
    fn greater_child(&self, at: usize) -> Option<(usize, u32)> {
        let left = at.saturating_mul(2).saturating_add(1);
        let right = left.saturating_add(1);
        let one = self.variable_at(left)?;
        match self.variable_at(right) {
            Some(two) if self.activity_of(two) > self.activity_of(one) => Some((right, two)),
            _ => Some((left, one)),
        }
    }
}
