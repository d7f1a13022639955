ghost use Rattle.std.specs.Prelude.{◌≡◌, ◌<◌, ◌+◌, ℕ, Bool, true, length, IfOk, IfSome};
ghost use Rattle.sig_classes.specs.Chains.{AreBefore, HasMembers, IsFound, are_one, class_of, with_member};

use crate::alike::{bucket, is_alike};
use std::alloc::{AllocError, Global};
use std::marker::Model;
use word_sim::Sigs;

/// The first members of classes, found by a hash of the class that they had and of their rows, in chains:
/// as in any hash table, but nothing is stored of a row, which is at hand by its position.
#[derive(Drop)]
pub struct Firsts {
    heads: Vec<u32>,
    behind: Vec<u32>,
}

impl Model for Firsts {
    ghost use Rattle.sig_classes.specs.Chains.{Chains, AreLinks};

    ghost Value = { Chains };

    ghost view = { λ f. record { heads = f.heads.items; behind = f.behind.items } };

    ghost invariant = { λ f. AreLinks (record { heads = f.heads.items; behind = f.behind.items }) };
}

impl Firsts {
    /// No members yet, and room for so many positions, of which there are some.
    pub fn with_room(alloc: Global, positions: u32) -> Result<Firsts, AllocError>
        requires { 0 < positions }
        ensures size { IfOk result (λ f. length f.behind ≡ positions) }
        ensures before { IfOk result (AreBefore 0) }
    {
        Ok(Firsts {
            heads: vec![in alloc; 0; positions as usize]?,
            behind: vec![in alloc; 0; positions as usize]?,
        })
    }

    /// The member that had the class of a position and has a row alike; none exactly where there is none.
    pub fn find(&self, classes: &[u32], sigs: &Sigs, position: u32) -> Option<u32>
        requires rows { length sigs.now.rows ≡ length self.now.behind }
        requires position { position < length sigs.now.rows }
        ensures found { (member : ℕ → Bool) → HasMembers classes.now sigs.now member self.now
            → IsFound classes.now sigs.now member position result }
        ensures inside { IfSome result (λ q. q < length sigs.now.rows) }
    {
        let row = sigs.row(position);
        let class = class_of(classes, position);
        let mut link = self.heads[bucket(class, row, sigs.patterns(), self.heads.len() as u32)];
        while link != 0 {
            let member = link - 1;
            if is_one(classes, sigs, member, position) {
                return Some(member);
            }
            link = self.behind[member as usize];
        }
        None
    }

    /// Puts a member last. Members come in the order of positions.
    pub fn put(&mut self, classes: &[u32], sigs: &Sigs, position: u32)
        requires rows { length sigs.now.rows ≡ length self.old.behind }
        requires position { position < length sigs.now.rows }
        requires order { AreBefore position self.old }
        ensures size { length self.new.behind ≡ length self.old.behind }
        ensures order { AreBefore (position + 1) self.new }
        ensures members { (member : ℕ → Bool) → ((q : ℕ) → member q ≡ true → q < position)
            → HasMembers classes.now sigs.now member self.old
            → HasMembers classes.now sigs.now (with_member position member) self.new }
    {
        let class = class_of(classes, position);
        let bucket = bucket(
            class,
            sigs.row(position),
            sigs.patterns(),
            self.heads.len() as u32,
        );
        self.behind[position as usize] = self.heads[bucket];
        self.heads[bucket] = position + 1;
    }
}

/// Whether two positions have one class and rows alike.
fn is_one(classes: &[u32], sigs: &Sigs, first: u32, second: u32) -> bool
    requires first { first < length sigs.now.rows }
    requires second { second < length sigs.now.rows }
    ensures { result ≡ are_one classes.now sigs.now first second }
{
    class_of(classes, first) == class_of(classes, second)
        && is_alike(sigs.row(first), sigs.row(second), sigs.patterns())
}

/// The class that a position has already.
pub fn class_of(classes: &[u32], position: u32) -> u32
    ensures { result ≡ class_of classes.now position }
{
    match classes.get(position as usize) {
        Some(class) => *class,
        None => 0,
    }
}
