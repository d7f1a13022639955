use dimacs_text::Cnf;
use lits::Dim;
use lrat_text::{Line, LratStep};

/// So many variables have a place each in a table, however few literals there are.
const SPARE: usize = 1 << 16;

/// For each literal so many variables more have one.
const SHARE: usize = 4;

/// How many literals stand in a formula and the lines of a proof, and how far their variables reach. Whoever
/// writes a proof may choose a few variables up to 2,147,483,647.
#[derive(Drop)]
pub(crate) struct Extent {
    literals: usize,
    greatest: u32,
}

impl Extent {
    /// That of the formula.
    fn of_formula(cnf: &Cnf) -> Extent {
        let mut extent = Extent {
            literals: 0,
            greatest: 0,
        };
        for clause in cnf.clauses.as_slice() {
            extent.take(clause.as_slice());
        }
        extent
    }

    /// That of formula and lines.
    pub(crate) fn of_lines(cnf: &Cnf, lines: &[Line]) -> Extent {
        let mut extent = Extent::of_formula(cnf);
        for line in lines {
            if let LratStep::Add { clause, .. } = &line.step {
                extent.take(clause.as_slice());
            }
        }
        extent
    }

    /// That of the formula, with room for a proof of this text, in which each literal takes two bytes at least.
    pub(crate) fn of_text(cnf: &Cnf, text: &[u8]) -> Extent {
        let mut extent = Extent::of_formula(cnf);
        extent.literals = extent.literals.saturating_add(text.len() / 2);
        extent
    }

    /// Takes the literals of one clause more into account.
    fn take(&mut self, clause: &[Dim]) {
        self.literals = self.literals.saturating_add(clause.len());
        for lit in clause {
            self.greatest = self.greatest.max(lit.var());
        }
    }

    /// The greatest variable for which a table may have a place.
    fn room(&self) -> usize {
        self.literals.saturating_mul(SHARE).saturating_add(SPARE)
    }

    /// Whether a table with a place for each variable is no larger than the literals warrant.
    pub(crate) fn is_dense(&self) -> bool {
        self.greatest as usize <= self.room()
    }

    /// Whether such a table may have a place for each variable of the step.
    pub(crate) fn has_room(&self, step: &LratStep) -> bool {
        match step {
            LratStep::Add { clause, .. } => self.has_room_for(clause.as_slice()),
            LratStep::Del { .. } => true,
        }
    }

    fn has_room_for(&self, clause: &[Dim]) -> bool {
        let room = self.room();
        clause.iter().all(|lit| lit.var() as usize <= room)
    }
}
