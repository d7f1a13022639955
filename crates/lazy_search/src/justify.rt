use crate::trail::Trail;
use crate::variables::Variables;
use search_parts::{FALSE, FREE, at, count};

impl Trail {
    /// The code that is to be chosen next: it makes a fanin of the first open gate false that has no false
    /// one yet. Where there is no such gate all values follow from those of the inputs.
    ///
    /// Such gates are the frontier that a test generator justifies (Goel 1981).
    pub(crate) fn open_fanin(&mut self, variables: &Variables) -> Option<u32> {
        let many = count(self.open.len());
        for place in self.justified..many {
            if let Some(fanin) = self.free_fanin(variables, at(&self.open, place)) {
                self.justified = place;
                return Some(fanin ^ 1);
            }
        }
        self.justified = many;
        None
    }

    /// A free fanin of a gate that has no false one: the first, if it is free.
    ///
    /// One false fanin is enough, and the one that is nearer to the inputs is the easier choice (Goel 1981).
    #[inline(always)]
    fn free_fanin(&self, variables: &Variables, var: u32) -> Option<u32> {
        let gate = variables.get(var);
        let first = self.value(gate.first);
        let second = self.value(gate.second);
        if first == FALSE || second == FALSE {
            return None;
        }
        if first == FREE {
            return Some(gate.first);
        }
        if second == FREE {
            return Some(gate.second);
        }
        None
    }
}
