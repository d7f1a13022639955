use std::collections::LinkedList;

/// What a pass knows, in proofs alone: no value of it is made.
///
/// `waits` and `holds` say how it stands in line, `taken` what it took out of the slot, `left` how many turns it has,
/// `held` a number that was drawn for a new pass. `numbers` are its own and those of the passes that it took in,
/// `splits` how many of its turns went to splits, and `own` is what the lock's user keeps of it.
pub struct View<S, U> {
    pub waits: bool,
    pub holds: bool,
    pub ticket: u64,
    pub taken: S,
    pub left: u64,
    pub number: u64,
    pub numbers: LinkedList<u64>,
    pub held: LinkedList<u64>,
    pub splits: u64,
    pub own: U,
}
