ghost use Rattle.std.specs.Prelude.{◌≡◌, ℕ, ◌<◌, ◌++◌, true, false, [], ◌∷◌, length, slice_set, OnOk, OnErr};
ghost use Rattle.lits.specs.Clause.{has};
ghost use Rattle.lits.specs.Finder.{is_marked, AreMarks, HasOwnCodes};

use crate::literal::Literal;
use std::alloc::{AllocError, Global};

/// Finds literals in a list by a mark for each code, so that one look tells whether a literal is there,
/// however long the list is.
///
/// The table is as long as the greatest code, which is too much for a list that is made once. It is for one
/// that is filled and emptied many times over: the marks are taken back one by one.
#[derive(Drop)]
pub(crate) struct Marks {
    marks: Vec<bool>,
}

impl Marks {
    /// No mark.
    pub(crate) fn new(alloc: Global) -> Marks
        ensures { result.marks.items ≡ [] }
    {
        Marks {
            marks: Vec::new(alloc),
        }
    }

    /// Whether the code is marked.
    pub(crate) fn has(&self, code: u64) -> bool
        ensures { result ≡ is_marked self.now.marks.items code }
    {
        match self.marks.get(code as usize) {
            Some(mark) => *mark,
            None => false,
        }
    }

    /// Makes room for the mark of a code.
    fn make_room(&mut self, code: u64) -> Result<(), AllocError>
        ensures room { OnOk result (code < length self.new.marks.items) }
        ensures marks { (c : ℕ) → is_marked self.new.marks.items c ≡ is_marked self.old.marks.items c }
    {
        let at = code as usize;
        if at >= self.marks.len() {
            match at.checked_add(1) {
                Some(room) => self.marks.resize(room, false)?,
                None => return Err(AllocError),
            }
        }
        Ok(())
    }

    /// Makes these the marks of the list with one literal more behind it.
    pub(crate) fn expect<L: Literal>(&mut self, lits: &[L], next: L) -> Result<(), AllocError>
        requires own { HasOwnCodes L.Literal.code }
        requires marks { AreMarks L.PartialEq.eq L.Literal.code self.old.marks.items lits.now }
        ensures ok { OnOk result
            (AreMarks L.PartialEq.eq L.Literal.code self.new.marks.items (lits.now ++ next ∷ [])) }
        ensures err { OnErr result
            (AreMarks L.PartialEq.eq L.Literal.code self.new.marks.items lits.now) }
    {
        let _list = lits;
        let code = next.code();
        self.make_room(code)?;
        self.marks[code as usize] = true;
        Ok(())
    }

    /// Takes the marks of the list's literals back.
    pub(crate) fn take_back<L: Literal>(&mut self, lits: &[L])
        requires { AreMarks L.PartialEq.eq L.Literal.code self.old.marks.items lits.now }
        ensures { AreMarks L.PartialEq.eq L.Literal.code self.new.marks.items [] }
    {
        for lit in lits {
            let at = lit.code() as usize;
            if at < self.marks.len() {
                self.marks[at] = false;
            }
        }
    }
}
