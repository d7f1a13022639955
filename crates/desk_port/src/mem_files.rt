//! Files in a map.
ghost use Rattle.std.specs.Prelude.{◌≡◌, [], IsSome, OnErr, OnOk};
ghost use Rattle.desk_port.specs.Desk.{extended, put};
ghost use Rattle.desk_port.specs.MemFiles.{files_of};

use std::alloc::{AllocError, Global};
use std::collections::BTreeMap;

/// Makes the named file empty, whether it was there or not.
pub fn make_empty(
    files: &mut BTreeMap<String, Vec<u8>>,
    alloc: Global,
    name: &str,
) -> Result<(), AllocError>
    ensures ok { OnOk result (files_of files.new ≡ put name.now [] (files_of files.old)) }
    ensures there { OnOk result (IsSome (files_of files.new name.now)) }
    ensures no_memory { OnErr result (files_of files.new ≡ files_of files.old) }
{
    let key = String::from_str(alloc, name)?;
    files.insert(key, Vec::new(alloc))?;
    Ok(())
}

/// Puts the bytes at the end of the named file.
pub fn extend(
    files: &mut BTreeMap<String, Vec<u8>>,
    name: &str,
    bytes: &[u8],
) -> Result<(), AllocError>
    requires { IsSome (files_of files.old name.now) }
    ensures ok { OnOk result
        (files_of files.new ≡ extended name.now bytes.now (files_of files.old)) }
    ensures there { IsSome (files_of files.new name.now) }
    ensures no_memory { OnErr result (files_of files.new ≡ files_of files.old) }
{
    files.get_mut(name).unwrap().extend_from_slice(bytes)?;
    Ok(())
}
