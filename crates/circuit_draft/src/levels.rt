ghost use Rattle.std.specs.Prelude.{◌≡◌, ◌≢◌, ◌*◌, IfOk, IfErr, OnOk, Some, option_map};
ghost use Rattle.byte_scan.specs.declared.errors.AigerErr.TheVariants.{NoMemory, Cycle};
ghost use Rattle.circuit_draft.specs.Levels.{on_cycle};
ghost use Rattle.circuit_draft.specs.Steps.{AreDefined, AreLevels, AreAllLevels};

use crate::draft::Draft;
use byte_scan::AigerErr;
use std::alloc::Global;

impl Draft {
    /// The level of each gate, by its place; or the first gate that has none.
    pub(crate) fn levels(&self, alloc: Global) -> Result<Vec<u32>, AigerErr>
        requires { AreDefined self.now }
        ensures levels { IfOk result (λ v. AreAllLevels self.now v.items) }
        ensures cycle { IfErr result (λ e. e ≢ NoMemory →
            option_map (λ g. Cycle (2 * g.var)) (on_cycle self.now) ≡ Some e) }
    {
        let mut levels = vec![in alloc; 0; self.parts.gates().len()]?;
        self.climb_all(alloc, levels.as_mut_slice())?;
        Ok(levels)
    }

    /// Climbs to each gate in the file's order, so that the gate that is named is the first of the file that
    /// is on a cycle or above one.
    fn climb_all(&self, alloc: Global, levels: &mut [u32]) -> Result<(), AigerErr>
        requires defined { AreDefined self.now }
        requires levels { AreLevels self.now levels.old }
        ensures levels { OnOk result (AreAllLevels self.now levels.new) }
        ensures cycle { IfErr result (λ e. e ≢ NoMemory →
            option_map (λ g. Cycle (2 * g.var)) (on_cycle self.now) ≡ Some e) }
    {
        let count = self.parts.gates().len() as u32;
        let mut path = Vec::new(alloc);
        for root in 0..count {
            if !self.climb(levels, &mut path, root)? {
                let gate = self.parts.gates()[root as usize];
                return Err(AigerErr::Cycle(2 * u64::from(gate.var)));
            }
        }
        Ok(())
    }
}
