ghost use Rattle.std.specs.Prelude.{◌≡◌, ◌<◌, length, map, slice_get, Some, IfOk, IfSome};
ghost use Rattle.lits.specs.Hints.{name_of, named};

use crate::node::{Node, Side};
use crate::step::Ref;
use std::alloc::{AllocError, Global};
use std::marker::Model;

/// Indices of packed names are below this.
const INDICES: u64 = 134_217_728;

/// The names of clauses that a step cites, in order. Contracts compare them as a list.
///
/// A name takes 24 bytes, and a book keeps some ten for each merge: of 540 bytes that a merge of a hash against
/// itself took, 240 were names. So who keeps a step for long packs its names into 4 bytes each; a name that doesn't
/// fit there leaves the list as it was.
#[derive(Drop)]
pub struct Hints {
    form: Form,
}

/// How the names are kept.
#[derive(Drop)]
pub(crate) enum Form {
    /// Each as a number.
    Packed(Vec<u32>),
    Wide(Vec<Ref>),
}

impl Model for Hints {
    ghost use Rattle.std.specs.Prelude.{List};
    ghost use Rattle.lits.specs.declared.step.Ref.{Ref};
    ghost use Rattle.lits.specs.Hints.{names_in};

    ghost Value = { List Ref };

    ghost view = { λ h. names_in h.form };
}

impl Hints {
    /// The names of the vector, without taking memory.
    pub fn of(names: Vec<Ref>) -> Hints
        ensures { result ≡ names.items }
    {
        Hints {
            form: Form::Wide(names),
        }
    }

    /// How many names there are.
    pub fn len(&self) -> usize
        ensures { result ≡ length self.now }
    {
        match &self.form {
            Form::Packed(codes) => codes.len(),
            Form::Wide(names) => names.len(),
        }
    }

    /// The name at a place, from 0.
    pub fn at(&self, place: usize) -> Ref
        requires { place < length self.now }
        ensures { slice_get self.now place ≡ Some result }
    {
        match &self.form {
            Form::Packed(codes) => name_of(codes[place]),
            Form::Wide(names) => names[place],
        }
    }

    /// The names as a vector of their own.
    pub fn to_vec(&self, alloc: Global) -> Result<Vec<Ref>, AllocError>
        ensures { IfOk result (λ v. v.items ≡ self.now) }
    {
        let mut names = Vec::with_capacity(alloc, self.len())?;
        for place in 0..self.len() {
            names.push(self.at(place))?;
        }
        Ok(names)
    }

    /// Keeps the same names in less memory, if each fits and there is memory for that.
    pub fn pack(&mut self, alloc: Global)
        ensures { self.new ≡ self.old }
    {
        if let Form::Wide(names) = &self.form {
            if let Ok(Some(codes)) = packed(alloc, names.as_slice()) {
                self.form = Form::Packed(codes);
            }
        }
    }
}

/// The numbers of the names, if each has one.
fn packed(alloc: Global, names: &[Ref]) -> Result<Option<Vec<u32>>, AllocError>
    ensures { IfOk result (λ o. IfSome o (λ v. map name_of v.items ≡ names.now)) }
{
    let mut codes = Vec::with_capacity(alloc, names.len())?;
    for name in names {
        match code_of(*name) {
            Some(code) => codes.push(code)?,
            None => return Ok(None),
        }
    }
    Ok(Some(codes))
}

/// The number of a name, if it has one.
fn code_of(name: Ref) -> Option<u32>
    ensures { IfSome result (λ code. name_of code ≡ name) }
{
    match name {
        Ref::Axiom(Node::Const, k) => code(0, k, 0),
        Ref::Axiom(Node::Input(index), k) => code(1, k, u64::from(index)),
        Ref::Axiom(Node::Gate(Side::A, variable), k) => code(2, k, u64::from(variable)),
        Ref::Axiom(Node::Gate(Side::B, variable), k) => code(3, k, u64::from(variable)),
        Ref::Axiom(Node::Xor(output), k) => code(4, k, u64::from(output)),
        Ref::Entry(entry, k) => code(5, k, entry),
        Ref::Own(step) => code(6, 0, step),
        Ref::Bound(Side::A, constraint) => code(7, 0, u64::from(constraint)),
        Ref::Bound(Side::B, constraint) => code(7, 1, u64::from(constraint)),
    }
}

/// The number of a kind, a clause of it and an index, if they fit.
fn code(kind: u32, k: u8, index: u64) -> Option<u32>
    requires { kind < 8 }
    ensures { IfSome result (λ code. name_of code ≡ named kind k index) }
{
    if k < 4 && index < INDICES {
        Some(32 * index as u32 + 8 * u32::from(k) + kind)
    } else {
        None
    }
}

/// The name that a number stands for.
fn name_of(code: u32) -> Ref
    ensures { result ≡ name_of code }
{
    let k = (code / 8 % 4) as u8;
    let index = code / 32;
    match code % 8 {
        0 => Ref::Axiom(Node::Const, k),
        1 => Ref::Axiom(Node::Input(index), k),
        2 => Ref::Axiom(Node::Gate(Side::A, index), k),
        3 => Ref::Axiom(Node::Gate(Side::B, index), k),
        4 => Ref::Axiom(Node::Xor(index), k),
        5 => Ref::Entry(u64::from(index), k),
        6 => Ref::Own(u64::from(index)),
        _ => Ref::Bound(if k == 0 { Side::A } else { Side::B }, index),
    }
}
