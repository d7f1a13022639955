ghost use Rattle.std.specs.Prelude.{IfOk, IfSome};
ghost use Rattle.strash_pass.specs.Shapes.{IsAt, IsFor};

use crate::coded::Coded;
use crate::marks::Marks;
use crate::shape::Shape;
use std::alloc::{AllocError, Global};

/// How many slots there are.
const SLOTS: usize = 512;

/// Shapes that were seen, each in the slot that its words and marks hash to. A later one of the same slot takes
/// it; where there are twice as many shapes as slots, all are given up.
///
/// Nearly no merge is scanned: the 32,000 of two rounds of Keccak against themselves have 8 shapes. No fact rests
/// on the slots: a shape is taken where its words and marks are those asked for.
#[derive(Drop)]
pub struct Shapes {
    slots: Vec<usize>,
    shapes: Vec<Shape>,
}

impl Shapes {
    /// None.
    pub fn new(alloc: Global) -> Shapes {
        Shapes {
            slots: Vec::new(alloc),
            shapes: Vec::new(alloc),
        }
    }

    /// The shape of these clauses and marks, which is put in where it isn't there; none where scanning comes to
    /// no end.
    pub fn shape_of(
        &mut self,
        alloc: Global,
        coded: &[Coded],
        below: Marks,
        above: Marks,
    ) -> Result<Option<&Shape>, AllocError>
        ensures { IfOk result (λ r. IfSome r (λ s. IsFor coded.now below above s.now)) }
    {
        let slot = slot_of(coded, below, above);
        match self.place(slot, coded, below, above) {
            Some(place) => Ok(Some(&self.shapes[place])),
            None => self.put(alloc, slot, coded, below, above),
        }
    }

    /// The place of the shape of these clauses and marks, if the slot leads to it.
    fn place(&self, slot: usize, coded: &[Coded], below: Marks, above: Marks) -> Option<usize>
        ensures { IfSome result (IsAt self.now.shapes.items coded.now below above) }
    {
        let place = *self.slots.get(slot)?;
        let shape = self.shapes.get(place)?;
        if shape.is_for(coded, below, above) {
            Some(place)
        } else {
            None
        }
    }

    /// Puts the shape of these clauses and marks in.
    fn put(
        &mut self,
        alloc: Global,
        slot: usize,
        coded: &[Coded],
        below: Marks,
        above: Marks,
    ) -> Result<Option<&Shape>, AllocError>
        ensures { IfOk result (λ r. IfSome r (λ s. IsFor coded.now below above s.now)) }
    {
        let Some(shape) = Shape::of(alloc, coded, below, above)? else {
            return Ok(None);
        };
        if self.slots.len() < SLOTS {
            self.slots = vec![in alloc; 0; SLOTS]?;
        }
        if self.shapes.len() >= 2 * SLOTS {
            self.shapes.clear();
        }
        let place = self.shapes.len();
        self.shapes.push(shape)?;
        if slot < self.slots.len() {
            self.slots[slot] = place;
        }
        Ok(Some(&self.shapes[place]))
    }
}

/// The slot that the words and the marks hash to.
fn slot_of(coded: &[Coded], below: Marks, above: Marks) -> usize {
    let mut hash = below.yes.wrapping_mul(3) ^ above.yes;
    for clause in coded {
        hash = (hash ^ clause.word).wrapping_mul(0x9E37_79B9_7F4A_7C15);
    }
    (hash >> 55) as usize
}
