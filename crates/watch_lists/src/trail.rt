ghost use Rattle.std.specs.Prelude.{◌≡◌, ◌<◌, ◌≤◌, ◌+◌, ◌*◌, ◌^◌, [], ◌∷◌, ℕ, true, false, length, OnOk, OnErr, IfOk, IfSome, IfNone, IsTrue, ◌↔◌};
ghost use Rattle.lits.specs.Clause.{has, no_repeat};
ghost use Rattle.lits.specs.Same.{same_lit, same_node, opposite};
ghost use Rattle.unit_prop.specs.Closure.{ClosureClashes};
ghost use Rattle.unit_prop.specs.Propagation.{IsFree};
ghost use Rattle.flat_base.specs.Codes.{lit_at, code_of, IsCode};
ghost use Rattle.watch_lists.specs.Codes.{AreCodesOf};
ghost use Rattle.watch_lists.specs.Whole.{IsWhole, IsTold, IsNumbered, state_of};
ghost use Rattle.std.specs.Prelude.{vec_capacity, map};
ghost use Rattle.std.specs.List.{All};
ghost use Rattle.watch_lists.specs.Trail.{empty_trail, trail_of, with_clause, put_at, clause_at, lits_of, decisions_of, up_to, IsComplete, IsConflict, IsQuiet, IsTrail, Keeps, Adds, Decides, Propagates, back_to};

use crate::code::flip;
use crate::engine::Engine;
use crate::numbers::Numbers;
use crate::put::Put;
use flat_base::FlatBase;
use lits::{Clause, Lit, Node};
use std::alloc::{AllocError, Global};
use std::marker::Model;

/// Clauses, and literals that are decided or propagated, level by level.
pub struct Trail {
    alloc: Global,
    numbers: Numbers,
    engine: Engine,
    /// The engine's literals once more, for those who read them.
    puts: Vec<Put>,
}

// Written out, so that a drop is one call and not one for each field at each exit of a function.
impl Drop for Trail {
    fn drop(self) {
        let Trail {
            alloc: _,
            numbers: _,
            engine: _,
            puts: _,
        } = self;
    }
}

impl Model for Trail {
    ghost use Rattle.std.specs.Prelude.{vec_capacity};
    ghost use Rattle.watch_lists.specs.Trail.{TrailState};
    ghost use Rattle.watch_lists.specs.Whole.{IsWhole, state_of};

    ghost Value = { TrailState };

    ghost view = { λ t. state_of t.numbers t.engine t.puts.items };

    ghost invariant = { λ t. IsWhole t.numbers t.engine t.puts.items (vec_capacity t.puts) };
}

impl Trail {
    /// The trail without clauses and literals.
    pub fn new(alloc: Global) -> Result<Trail, AllocError>
        ensures { IfOk result (λ t. t ≡ empty_trail) }
    {
        Ok(Trail {
            alloc,
            numbers: Numbers::new(alloc),
            engine: Engine::new(alloc),
            puts: Vec::new(alloc),
        })
    }

    /// Gives up all clauses, literals and variables, and keeps the memory. It costs what they were, and
    /// not what memory there is.
    pub fn clear(&mut self)
        ensures { self.new ≡ empty_trail }
    {
        self.numbers.clear();
        self.engine.clear();
        self.puts.clear();
    }

    /// Adds a clause, as the last one.
    ///
    /// At a level below the last it may neither be wholly negated nor force a literal that is missing
    /// there. After a refusal some of its variables may have numbers.
    pub fn add(&mut self, clause: &Clause<Lit>) -> Result<(), AllocError>
        requires { (level : ℕ) → level < self.old.last → IsQuiet (up_to level self.old.puts) clause.now }
        ensures ok { OnOk result (Adds self.old clause.now self.new) }
        ensures err { OnErr result (Keeps self.old clause.now self.new) }
    {
        let codes = self.codes_of(clause.lits())?;
        self.add_codes(codes.as_slice())
    }

    /// The same of the clause of these codes, without a probe.
    pub fn add_codes(&mut self, codes: &[u32]) -> Result<(), AllocError>
        requires codes { All (IsCode self.old.nodes) codes.now }
        requires quiet { (level : ℕ) → level < self.old.last
            → IsQuiet (up_to level self.old.puts) (map (lit_at self.old.nodes) codes.now) }
        ensures ok { OnOk result (self.new ≡ with_clause self.old (map (lit_at self.old.nodes) codes.now)) }
        ensures err { OnErr result (self.new ≡ self.old) }
    {
        self.engine.add(codes)
    }

    /// Takes the variables and the clauses of a flat base in the place of all that was there.
    ///
    /// The nodes keep their numbers and the clauses their codes: a node is pushed once, where the literals of
    /// a list are probed one by one. After a refusal some of both may be there.
    pub fn start(&mut self, base: &FlatBase) -> Result<(), AllocError>
        ensures { OnOk result (self.new ≡ trail_of base.now) }
    {
        self.clear();
        self.number_all(base.nodes())?;
        for number in 0..base.len() {
            self.add_codes(base.codes(number))?;
        }
        Ok(())
    }

    /// Begins a level with a literal that is free, where all literals are the closure of the clauses
    /// and the decisions.
    pub fn decide(&mut self, lit: Lit) -> Result<(), AllocError>
        requires free { IsFree same_lit opposite (lits_of self.old.puts) lit }
        requires complete { IsComplete self.old.clauses self.old.puts }
        ensures ok { OnOk result (Decides self.old lit self.new) }
        ensures err { OnErr result (Keeps self.old (lit ∷ []) self.new) }
    {
        let code = self.number(lit)?;
        self.decide_code(code)
    }

    /// The same with the literal's code, without a probe.
    pub fn decide_code(&mut self, code: u32) -> Result<(), AllocError>
        requires code { IsCode self.old.nodes code }
        requires free { IsFree same_lit opposite (lits_of self.old.puts) (lit_at self.old.nodes code) }
        requires complete { IsComplete self.old.clauses self.old.puts }
        ensures ok { OnOk result (Decides self.old (lit_at self.old.nodes code) self.new) }
        ensures nodes { self.new.nodes ≡ self.old.nodes }
        ensures err { OnErr result (self.new ≡ self.old) }
    {
        self.engine.decide(code)?;
        let level = self.engine.levels.len() as u64;
        let lit = lit_of(&self.numbers, code);
        self.puts.push_reserved(Put {
            lit,
            level,
            by: None,
        });
        Ok(())
    }

    /// Puts what clauses force, until the literals are the closure or some clause is wholly negated.
    ///
    /// After a refusal some of these literals may have been put.
    pub fn propagate(&mut self) -> Result<Option<u64>, AllocError>
        ensures none { IfOk result (λ r. IfNone r (IsComplete self.new.clauses self.new.puts)) }
        ensures some { IfOk result (λ r. IfSome r (λ i.
            (i < length self.new.clauses) × IsConflict self.new.puts (clause_at self.new.clauses i))) }
        ensures clash { IfOk result (λ r. IfSome r (λ _.
            ClosureClashes same_lit opposite self.new.clauses (decisions_of self.new.puts))) }
        ensures rest { Propagates self.old self.new }
    {
        let found = self.engine.propagate();
        tell(&mut self.puts, &self.numbers, &self.engine);
        Ok(wide(found?))
    }

    /// Gives the later levels up.
    pub fn back(&mut self, level: u64)
        ensures { self.new ≡ back_to level self.old }
    {
        let count = level as usize;
        if count < self.engine.levels.len() {
            self.engine.back(count);
            self.puts.truncate(self.engine.trail.len());
        }
    }

    /// The literals, in the order in which they were put.
    pub fn lits(&self) -> &[Put]
        ensures puts { result.now ≡ self.now.puts }
        ensures trail { IsTrail self.now }
        ensures room { length self.now.puts ≤ 2 * length self.now.nodes }
    {
        self.puts.as_slice()
    }

    /// The last level.
    pub fn level(&self) -> u64
        ensures { result ≡ self.now.last }
    {
        self.engine.levels.len() as u64
    }

    /// How many clauses there are.
    pub fn clauses(&self) -> u64
        ensures { result ≡ length self.now.clauses }
    {
        self.engine.clauses.len() as u64
    }

    /// How many variables have numbers. The codes of their literals are below twice as many.
    pub fn variables(&self) -> usize
        ensures count { result ≡ length self.now.nodes }
        ensures small { result ≤ 2 ^ 31 }
    {
        self.numbers.len()
    }

    /// The code of a literal; None where its variable has no number. It takes one hashed probe.
    pub fn code(&self, lit: Lit) -> Option<u32>
        ensures some { IfSome result (λ c. IsCode self.now.nodes c × (lit_at self.now.nodes c ≡ lit)) }
        ensures none { IfNone result (has same_node self.now.nodes lit.node ≡ false) }
    {
        match self.numbers.find(lit.node) {
            Some(number) => Some(code_of(number, lit.neg)),
            None => None,
        }
    }

    /// The literal of a code.
    pub fn lit(&self, code: u32) -> Lit
        requires { IsCode self.now.nodes code }
        ensures { result ≡ lit_at self.now.nodes code }
    {
        lit_of(&self.numbers, code)
    }

    /// Whether the literal of the code was put.
    pub fn is_true(&self, code: u32) -> bool
        requires { IsCode self.now.nodes code }
        ensures { result ≡ has same_lit (lits_of self.now.puts) (lit_at self.now.nodes code) }
    {
        self.engine.truth[code as usize]
    }

    /// Whether neither the literal of the code nor its negation was put.
    pub fn is_free(&self, code: u32) -> bool
        requires { IsCode self.now.nodes code }
        ensures { IsTrue result ↔ IsFree same_lit opposite (lits_of self.now.puts)
            (lit_at self.now.nodes code) }
    {
        !self.engine.truth[code as usize] && !self.engine.truth[flip(code) as usize]
    }

    /// The place at which the literal of the code was put; `lits` has its level and its clause there.
    pub fn place(&self, code: u32) -> Option<usize>
        requires { IsCode self.now.nodes code }
        ensures some { IfSome result (λ p.
            (p < length self.now.puts) × ((put_at self.now.puts p).lit ≡ lit_at self.now.nodes code)) }
        ensures none { IfNone result
            (has same_lit (lits_of self.now.puts) (lit_at self.now.nodes code) ≡ false) }
    {
        if self.engine.truth[code as usize] {
            Some(self.engine.places[code as usize])
        } else {
            None
        }
    }

    /// The code of the literal at a place.
    pub fn code_at(&self, place: usize) -> u32
        requires { place < length self.now.puts }
        ensures code { IsCode self.now.nodes result }
        ensures lit { lit_at self.now.nodes result ≡ (put_at self.now.puts place).lit }
    {
        self.engine.trail[place]
    }

    /// The codes of a clause's literals, in any order.
    pub fn clause(&self, number: u64) -> &[u32]
        requires { number < length self.now.clauses }
        ensures { AreCodesOf self.now.nodes (clause_at self.now.clauses number) result.now }
    {
        self.engine.clauses.get(number as u32)
    }

    /// The code of a literal, whose variable is numbered where it has no number.
    fn number(&mut self, lit: Lit) -> Result<u32, AllocError>
        ensures code { IfOk result (λ c. IsCode self.new.nodes c × (lit_at self.new.nodes c ≡ lit)) }
        ensures keeps { Keeps self.old (lit ∷ []) self.new }
        ensures err { OnErr result (self.new ≡ self.old) }
    {
        match self.numbers.find(lit.node) {
            Some(number) => Ok(code_of(number, lit.neg)),
            None => self.number_next(lit),
        }
    }

    /// Gives the next number to a literal's variable.
    fn number_next(&mut self, lit: Lit) -> Result<u32, AllocError>
        requires { has same_node self.old.nodes lit.node ≡ false }
        ensures code { IfOk result (λ c. IsCode self.new.nodes c × (lit_at self.new.nodes c ≡ lit)) }
        ensures ok { OnOk result (IsNumbered self.old lit.node self.new) }
        ensures err { OnErr result (self.new ≡ self.old) }
    {
        let number = self.number_node(lit.node)?;
        Ok(code_of(number, lit.neg))
    }

    /// Gives the next number to a node.
    fn number_node(&mut self, node: Node) -> Result<usize, AllocError>
        requires { has same_node self.old.nodes node ≡ false }
        ensures number { IfOk result (λ n. (n ≡ length self.old.nodes) × (n < 2 ^ 31)) }
        ensures ok { OnOk result (IsNumbered self.old node self.new) }
        ensures err { OnErr result (self.new ≡ self.old) }
    {
        let number = self.numbers.len();
        if number >= MOST {
            return Err(AllocError);
        }
        make_room(&self.numbers, &mut self.engine, &mut self.puts)?;
        self.numbers.push(node)?;
        Ok(number)
    }

    /// Gives numbers to nodes in their order, where there are none.
    fn number_all(&mut self, nodes: &[Node]) -> Result<(), AllocError>
        requires empty { self.old ≡ empty_trail }
        requires once { no_repeat same_node nodes.now ≡ true }
        ensures { OnOk result (self.new ≡ trail_of (record { nodes = nodes.now; clauses = [] })) }
    {
        for node in nodes {
            self.number_node(*node)?;
        }
        Ok(())
    }

    /// The codes of literals, whose variables are numbered where they have no numbers.
    fn codes_of(&mut self, lits: &[Lit]) -> Result<Vec<u32>, AllocError>
        ensures codes { IfOk result (λ v. (map (lit_at self.new.nodes) v.items ≡ lits.now)
            × All (IsCode self.new.nodes) v.items) }
        ensures keeps { Keeps self.old lits.now self.new }
    {
        let mut codes = Vec::with_capacity(self.alloc, lits.len())?;
        for lit in lits {
            let code = self.number(*lit)?;
            codes.push(code)?;
        }
        Ok(codes)
    }
}

/// So many variables can have numbers, since codes have 32 bits.
const MOST: usize = 2_147_483_648;

/// Makes room for one variable more.
fn make_room(numbers: &Numbers, engine: &mut Engine, puts: &mut Vec<Put>) -> Result<(), AllocError>
    requires whole { IsWhole numbers.now engine.old puts.old.items (vec_capacity puts.old) }
    requires few { length numbers.now < 2 ^ 31 }
    ensures whole { IsWhole numbers.now engine.new puts.new.items (vec_capacity puts.new) }
    ensures same { state_of numbers.now engine.new puts.new.items
        ≡ state_of numbers.now engine.old puts.old.items }
    ensures room { OnOk result (2 * length numbers.now + 2 ≤ length engine.new.truth.items) }
{
    let count = 2 * numbers.len() + 2;
    if engine.truth.len() >= count {
        return Ok(());
    }
    let more = count - puts.len();
    puts.reserve(more)?;
    engine.grow()?;
    Ok(())
}

/// The code of the literal of a number, and its sign.
fn code_of(number: usize, neg: bool) -> u32
    requires { number < 2 ^ 31 }
    ensures { result ≡ code_of number neg }
{
    2 * number as u32 + if neg { 1 } else { 0 }
}

/// The literal of a code.
fn lit_of(numbers: &Numbers, code: u32) -> Lit
    requires { IsCode numbers.now code }
    ensures { result ≡ lit_at numbers.now code }
{
    Lit {
        node: numbers.get(code as usize / 2),
        neg: code % 2 == 1,
    }
}

/// The number of a clause, in the width of a put.
fn wide(by: Option<u32>) -> Option<u64>
    ensures { result ≡ by }
{
    match by {
        Some(clause) => Some(u64::from(clause)),
        None => None,
    }
}

/// Puts down the literals that the engine has put.
fn tell(puts: &mut Vec<Put>, numbers: &Numbers, engine: &Engine)
    requires room { length engine.now.trail.items ≤ vec_capacity puts.old }
    requires fewer { length puts.old.items ≤ length engine.now.trail.items }
    requires reasons { length engine.now.reasons.items ≡ length engine.now.trail.items }
    requires codes { All (IsCode numbers.now) engine.now.trail.items }
    ensures told { IsTold numbers.now engine.now puts.old.items puts.new.items }
    ensures capacity { vec_capacity puts.new ≡ vec_capacity puts.old }
{
    let level = engine.levels.len() as u64;
    for place in puts.len()..engine.trail.len() {
        let lit = lit_of(numbers, engine.trail[place]);
        let by = wide(engine.reasons[place]);
        puts.push_reserved(Put { lit, level, by });
    }
}
