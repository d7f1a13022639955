use std::alloc::{AllocError, Global};

/// How much less a conflict counts than the next one.
const DECAY: f64 = 0.95;

/// Above this all activities are made smaller.
const LARGE: f64 = 1e100;

/// The place of a variable that isn't in the heap.
const ABSENT: usize = usize::MAX;

/// A variable of the heap, with its activity once more: comparisons go through the heap alone, where an activity
/// that is looked up by its variable is a second memory access for each.
#[derive(Clone, Copy)]
struct Entry {
    variable: u32,
    activity: f64,
}

/// Hands out variables, those first that conflicts met most of late (Moskewicz, Madigan, Zhao, Zhang
/// and Malik 2001; the growing step is that of MiniSat, Eén and Sörensson 2003).
///
/// Nothing rests on it but speed: who asks for a variable looks whether it is free, and where the order
/// has none left looks for one himself. Variables that were put stay in the heap until they come to its
/// top, so that only those that came out have to come back.
pub(crate) struct Order {
    activity: Vec<f64>,
    /// A binary heap, the variable of the greatest activity at its top.
    heap: Vec<Entry>,
    /// Where each variable is in the heap.
    places: Vec<usize>,
    /// What a bump adds.
    step: f64,
}

// Written out, so that a drop is one call and not one for each field at each exit of a function.
impl Drop for Order {
    fn drop(self) {
        let Order {
            activity: _,
            heap: _,
            places: _,
            step: _,
        } = self;
    }
}

impl Order {
    /// The order of no variable.
    pub(crate) fn new(alloc: Global) -> Order {
        Order {
            activity: Vec::new(alloc),
            heap: Vec::new(alloc),
            places: Vec::new(alloc),
            step: 1.0,
        }
    }

    /// Takes in the variables below the number, in the place of all that were there.
    pub(crate) fn start(&mut self, count: u32) -> Result<(), AllocError> {
        self.clear();
        self.grow(count)
    }

    /// Forgets all variables and keeps the memory.
    fn clear(&mut self) {
        self.activity.clear();
        self.heap.clear();
        self.places.clear();
        self.step = 1.0;
    }

    /// Takes in the variables below the number that aren't there yet.
    fn grow(&mut self, count: u32) -> Result<(), AllocError> {
        for variable in 0..count {
            if variable as usize >= self.places.len() {
                self.add(variable)?;
            }
        }
        Ok(())
    }

    /// Takes in the next variable.
    fn add(&mut self, variable: u32) -> Result<(), AllocError> {
        self.activity.push(0.0)?;
        self.places.push(ABSENT)?;
        self.put_back(variable)
    }

    /// How many variables it can still hand out.
    pub(crate) fn len(&self) -> usize {
        self.heap.len()
    }

    /// Hands out the variable of the greatest activity.
    pub(crate) fn pop(&mut self) -> Option<u32> {
        let last = self.heap.pop()?;
        let first = match self.heap.as_slice() {
            [] => last,
            [top, ..] => *top,
        };
        self.set_place(first.variable, ABSENT);
        self.sift_down(last);
        Some(first.variable)
    }

    /// Takes a variable back, unless it is there.
    pub(crate) fn put_back(&mut self, variable: u32) -> Result<(), AllocError> {
        if self.place(variable) != ABSENT {
            return Ok(());
        }
        let place = self.heap.len();
        let entry = Entry {
            variable,
            activity: self.activity_of(variable),
        };
        self.heap.push(entry)?;
        self.sift_up(place, entry);
        Ok(())
    }

    /// Counts a conflict that met the variable.
    pub(crate) fn bump(&mut self, variable: u32) {
        let Some(activity) = self.activity.as_mut_slice().get_mut(variable as usize) else {
            return;
        };
        *activity += self.step;
        if *activity > LARGE {
            self.rescale();
        }
        let place = self.place(variable);
        if place != ABSENT {
            let activity = self.activity_of(variable);
            self.sift_up(place, Entry { variable, activity });
        }
    }

    /// Lets the conflicts so far count less.
    pub(crate) fn decay(&mut self) {
        self.step /= DECAY;
    }

    /// Makes all activities smaller alike, so that no sum runs out of the range of floating point; their
    /// order stays (MiniSat).
    fn rescale(&mut self) {
        for activity in self.activity.iter_mut() {
            *activity /= LARGE;
        }
        for entry in self.heap.iter_mut() {
            entry.activity /= LARGE;
        }
        self.step /= LARGE;
    }

    #[inline(always)]
    fn place(&self, variable: u32) -> usize {
        match self.places.as_slice().get(variable as usize) {
            Some(place) => *place,
            None => ABSENT,
        }
    }

    #[inline(always)]
    fn set_place(&mut self, variable: u32, place: usize) {
        if let Some(slot) = self.places.as_mut_slice().get_mut(variable as usize) {
            *slot = place;
        }
    }

    /// What stands at a place of the heap. No contract keeps the heap, so each look-up allows for a place that
    /// isn't there.
    #[inline(always)]
    fn entry_at(&self, place: usize) -> Option<Entry> {
        self.heap.as_slice().get(place).copied()
    }

    #[inline(always)]
    fn activity_of(&self, variable: u32) -> f64 {
        match self.activity.as_slice().get(variable as usize) {
            Some(activity) => *activity,
            None => 0.0,
        }
    }

    /// Writes a variable down at a place of the heap.
    #[inline(always)]
    fn set(&mut self, place: usize, entry: Entry) {
        if let Some(slot) = self.heap.as_mut_slice().get_mut(place) {
            *slot = entry;
            self.set_place(entry.variable, place);
        }
    }

    /// Lets a variable rise in the heap from a place that is free, until none above it has less activity.
    ///
    /// Those that it passes come down into the hole, and it is written down once, at its last place: with a swap
    /// at each step the heap took a tenth of all instructions on a Hamming decoder.
    fn sift_up(&mut self, place: usize, entry: Entry) {
        let mut at = place;
        while at > 0 {
            let parent = (at - 1) / 2;
            let Some(above) = self.entry_at(parent) else {
                break;
            };
            if entry.activity <= above.activity {
                break;
            }
            self.set(at, above);
            at = parent;
        }
        self.set(at, entry);
    }

    /// Lets a variable sink from the top, which is free, as `sift_up` lets one rise. A heap is never deeper than
    /// its length has bits.
    fn sift_down(&mut self, entry: Entry) {
        let mut at: usize = 0;
        for _ in 0..usize::BITS {
            let Some((place, below)) = self.greater_child(at) else {
                break;
            };
            if entry.activity >= below.activity {
                break;
            }
            self.set(at, below);
            at = place;
        }
        self.set(at, entry);
    }

    /// The child of a place that has the greater activity, the left one where both have the same.
    #[inline(always)]
    fn greater_child(&self, at: usize) -> Option<(usize, Entry)> {
        let left = at.saturating_mul(2).saturating_add(1);
        let right = left.saturating_add(1);
        let one = self.entry_at(left)?;
        match self.entry_at(right) {
            Some(two) if two.activity > one.activity => Some((right, two)),
            _ => Some((left, one)),
        }
    }
}
