ghost use Rattle.std.specs.Prelude.{◌≡◌, IfOk};
ghost use Rattle.symbol_names.specs.Names.{unnamed};

use crate::name_list::NameList;
use std::alloc::{AllocError, Global};

/// The names of a circuit's inputs and outputs, in order.
#[derive(Drop)]
pub struct Names {
    pub inputs: NameList,
    pub outputs: NameList,
}

impl Names {
    /// So many inputs and outputs without a name. No memory is taken.
    pub fn none(alloc: Global, inputs: u32, outputs: u32) -> Names
        ensures { result ≡ unnamed inputs outputs }
    {
        Names {
            inputs: NameList::none(alloc, inputs),
            outputs: NameList::none(alloc, outputs),
        }
    }

    /// The same names once more.
    pub fn copy(&self, alloc: Global) -> Result<Names, AllocError>
        ensures { IfOk result (λ n. n ≡ self.now) }
    {
        let inputs = self.inputs.copy(alloc)?;
        let outputs = self.outputs.copy(alloc)?;
        Ok(Names { inputs, outputs })
    }
}
