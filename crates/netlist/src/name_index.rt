ghost use Rattle.std.specs.Prelude.{◌≡◌, ℕ, length, List, MatchResult, None, Option, Some};
ghost use Rattle.std.specs.Option.{option_map};
ghost use Rattle.netlist.specs.declared.unlike.Unlike.TheVariants.{Doubled};
ghost use Rattle.netlist.specs.ByName.{doubled, place_named, IsTold};
ghost use Rattle.netlist.specs.NameIndex.{number, IsIndex};

use crate::port::Port;
use crate::unlike::Unlike;
use lits::Side;
use std::alloc::Global;
use std::collections::BTreeMap;
use symbol_names::NameList;

/// Finds the place of a name among names that differ.
///
/// It is an ordered map, so that no choice of names makes it slow, as it could a table of hashes. Its keys
/// are the names where they stand, each behind a number made of its bytes: names of a circuit often begin
/// alike, and their numbers differ at once. Names that are chosen to have one number are compared by their
/// bytes.
#[derive(Drop)]
pub(crate) struct NameIndex<'a> {
    places: BTreeMap<(u64, &'a [u8]), u32>,
}

impl<'a> NameIndex<'a> {
    /// The index of the names at one kind of port of one side.
    pub fn of(
        alloc: Global,
        side: Side,
        port: Port,
        names: &'a NameList,
        count: u32,
    ) -> Result<NameIndex<'a>, Unlike>
        requires { count ≡ length names.now }
        ensures { MatchResult result
            (λ index. (doubled names.now ≡ None) × IsIndex index.places names.now)
            (IsTold (option_map (Doubled side port) (doubled names.now))) }
    {
        let mut places = BTreeMap::new(alloc);
        for k in 0..count {
            if let Some(name) = names.get(k) {
                match places.insert((number(name), name), k) {
                    Ok(None) => {}
                    Ok(Some(_)) => return Err(Unlike::Doubled(side, port, k)),
                    Err(_) => return Err(Unlike::NoMemory),
                }
            }
        }
        Ok(NameIndex { places })
    }

    /// The place of a name; none where the names haven't it.
    pub fn place(&self, name: &'a [u8]) -> Option<u32>
        ensures { (names : List (Option (List ℕ))) → IsIndex self.now.places names
            → result ≡ place_named names (Some name.now) }
    {
        self.places.get(&(number(name), name)).copied()
    }
}

/// A name's bytes as the digits of a number, modulo 2 ^ 64.
fn number(name: &[u8]) -> u64
    ensures { result ≡ number name.now }
{
    let mut number = 0u64;
    for k in 0..name.len() {
        number = number.wrapping_mul(257).wrapping_add(name[k] as u64);
    }
    number
}
