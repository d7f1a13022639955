//! The statistics of a check, which are warned behind its verdict where they are asked for.
ghost use Rattle.std.specs.Prelude.{◌≡◌, ◌⊎◌, ◌++◌, true, decimal, IfOk, OnOk};
ghost use Rattle.endings.specs.Stops.{IsWarned};
ghost use Rattle.cec_top.specs.Stats.{AreSizesOf, Reports, count_line, known_line, merges_text, others_text, parts_text, seconds_line, sizes_text, stats_text, time_line, times_text};

use crate::watched::Parts;
use check_session::{Counts, Session};
use desk_port::{Desk, PutErr};
use itoa::Buffer;
use lits::Side;
use netlist::{Circuit, Net};
use std::alloc::{AllocError, Global};
use std::rt::Clock;
use std::time::Instant;

/// How large the circuits and the CNF of a check are.
#[derive(Clone, Copy)]
pub(crate) struct Sizes {
    pub(crate) gates_a: u64,
    pub(crate) gates_b: u64,
    pub(crate) levels_a: u64,
    pub(crate) levels_b: u64,
    pub(crate) clauses: u64,
}

/// How long the parts of a check took, in thousandths of a second, where that is known.
#[derive(Clone, Copy)]
pub(crate) struct Times {
    /// Reading the files, before check 0.
    pub(crate) reading: Option<u64>,
    /// Until the verdict was known.
    pub(crate) checking: Option<u64>,
    /// Its parts.
    pub(crate) structure: Option<u64>,
    pub(crate) sweep: Option<u64>,
    pub(crate) outputs: Option<u64>,
    /// Until its files were left and it was said.
    pub(crate) telling: Option<u64>,
}

/// The statistics of a check.
#[derive(Clone, Copy)]
pub(crate) struct Numbers {
    pub(crate) sizes: Sizes,
    pub(crate) counts: Counts,
    /// The lines of the proof, where one was written.
    pub(crate) proof_lines: Option<u64>,
    pub(crate) times: Times,
}

/// What the clock showed around the parts of a check, where it was looked at, and what they told.
#[derive(Clone, Copy)]
pub(crate) struct Marks {
    pub(crate) begun: Option<Instant>,
    pub(crate) read: Option<Instant>,
    pub(crate) checked: Option<Instant>,
    pub(crate) told: Option<Instant>,
    /// What the check told of its parts.
    pub(crate) parts: Parts,
    /// The lines of the proof, where one was written.
    pub(crate) proof_lines: Option<u64>,
}

/// What the clock shows, where it is to be looked at and can be.
pub(crate) fn look(rt: &impl Clock, is_wanted: bool) -> Option<Instant> {
    if is_wanted {
        Instant::now(rt).ok()
    } else {
        None
    }
}

/// The thousandths of a second between two looks at the clock.
fn between(from: Option<Instant>, to: Option<Instant>) -> Option<u64> {
    match (from, to) {
        (Some(from), Some(to)) => u64::try_from(to.duration_since(from).as_millis()).ok(),
        _ => None,
    }
}

/// Warns of the statistics of the session's last check, if they are asked for. The verdict was said before,
/// so nothing that fails here changes how the check ends: without memory for them they are left out, and
/// where the warning fails what is behind the failure is.
pub(crate) fn report<D: Desk>(
    alloc: Global,
    desk: &mut D,
    session: &Session,
    is_wanted: bool,
    marks: Marks,
)
    ensures { Reports is_wanted session.now.net session.now.book.entries marks.proof_lines
        (D.state desk.old) (D.state desk.new) }
{
    if is_wanted {
        report_numbers(alloc, desk, session, marks);
    }
}

/// Warns of them, where there is memory for the numbers.
fn report_numbers<D: Desk>(alloc: Global, desk: &mut D, session: &Session, marks: Marks)
    ensures { Reports true session.now.net session.now.book.entries marks.proof_lines
        (D.state desk.old) (D.state desk.new) }
{
    match sizes_of(alloc, session.net()) {
        Ok(sizes) => {
            let numbers = Numbers {
                sizes,
                counts: session.counts(),
                proof_lines: marks.proof_lines,
                times: times_of(marks),
            };
            warn_numbers(alloc, desk, numbers)
        }
        Err(_) => {}
    }
}

/// Warns of these numbers, where there is memory for their text.
fn warn_numbers<D: Desk>(alloc: Global, desk: &mut D, numbers: Numbers)
    ensures { (D.state desk.new ≡ D.state desk.old)
        ⊎ IsWarned (D.state desk.old) (D.state desk.new) (stats_text numbers) }
{
    match stats_text(alloc, numbers) {
        Ok(text) => warn_text(desk, text.as_slice()),
        Err(_) => {}
    }
}

/// Warns of a text. Where the warning fails a first part of it is warned, and nothing where memory runs out.
pub(crate) fn warn_text<D: Desk>(desk: &mut D, text: &[u8])
    ensures { (D.state desk.new ≡ D.state desk.old)
        ⊎ IsWarned (D.state desk.old) (D.state desk.new) text.now }
{
    match desk.warn(text) {
        Ok(()) | Err(PutErr::Failed) => {}
        Err(PutErr::NoMemory) => {}
    }
}

fn times_of(marks: Marks) -> Times {
    Times {
        reading: between(marks.begun, marks.read),
        checking: between(marks.read, marks.checked),
        structure: marks.parts.structure,
        sweep: marks.parts.sweep,
        outputs: marks.parts.outputs,
        telling: between(marks.checked, marks.told),
    }
}

fn sizes_of(alloc: Global, net: &Net) -> Result<Sizes, AllocError>
    ensures { IfOk result (AreSizesOf net.now) }
{
    let (a, b) = (net.circuit(Side::A), net.circuit(Side::B));
    Ok(Sizes {
        gates_a: a.gates().len() as u64,
        gates_b: b.gates().len() as u64,
        levels_a: levels_of(alloc, a)?,
        levels_b: levels_of(alloc, b)?,
        clauses: u64::from(net.clauses()),
    })
}

/// How many gates stand on the longest way through a circuit, each of whose gates stands behind its fanins.
fn levels_of(alloc: Global, circuit: &Circuit) -> Result<u64, AllocError> {
    let mut levels = Vec::new(alloc);
    let mut most = 0_u32;
    for gate in circuit.gates() {
        let left = level_at(levels.as_slice(), gate.left);
        let right = level_at(levels.as_slice(), gate.right);
        let level = left.max(right).saturating_add(1);
        put_level(&mut levels, gate.var, level)?;
        most = most.max(level);
    }
    Ok(u64::from(most))
}

/// The level of a literal's variable: 0 where it is no gate's.
fn level_at(levels: &[u32], lit: u32) -> u32 {
    match levels.get((lit / 2) as usize) {
        Some(level) => *level,
        None => 0,
    }
}

/// Notes the level of a gate's variable.
fn put_level(levels: &mut Vec<u32>, var: u32, level: u32) -> Result<(), AllocError> {
    let place = var as usize;
    if levels.len() <= place {
        levels.resize(place + 1, 0)?;
    }
    if let Some(at) = levels.get_mut(place) {
        *at = level;
    }
    Ok(())
}

/// The lines of a check's statistics.
fn stats_text(alloc: Global, numbers: Numbers) -> Result<Vec<u8>, AllocError>
    ensures { IfOk result (λ v. v.items ≡ stats_text numbers) }
{
    let mut text = Vec::new(alloc);
    push_sizes(&mut text, numbers.sizes)?;
    push_merges(&mut text, numbers.counts)?;
    push_others(&mut text, numbers.counts)?;
    push_known(&mut text, b"proof_lines", numbers.proof_lines)?;
    push_times(&mut text, numbers.times)?;
    Ok(text)
}

#[tactic(auto, unfolding(crate::specs::Stats::sizes_text))]
fn push_sizes(text: &mut Vec<u8>, sizes: Sizes) -> Result<(), AllocError>
    ensures { OnOk result (text.new.items ≡ text.old.items ++ sizes_text sizes) }
{
    push_count(text, b"gates_a", sizes.gates_a)?;
    push_count(text, b"gates_b", sizes.gates_b)?;
    push_count(text, b"levels_a", sizes.levels_a)?;
    push_count(text, b"levels_b", sizes.levels_b)?;
    push_count(text, b"clauses", sizes.clauses)
}

#[tactic(auto, unfolding(crate::specs::Stats::merges_text))]
fn push_merges(text: &mut Vec<u8>, counts: Counts) -> Result<(), AllocError>
    ensures { OnOk result (text.new.items ≡ text.old.items ++ merges_text counts) }
{
    push_count(text, b"patterns", counts.patterns)?;
    push_count(text, b"rounds", counts.rounds)?;
    push_count(text, b"kept", counts.kept)?;
    push_count(text, b"merges_by_structure", counts.by_structure)?;
    push_count(text, b"merges_by_search", counts.by_search)?;
    push_count(text, b"merges_by_cone", counts.by_cone)?;
    Ok(())
}

#[tactic(auto, unfolding(crate::specs::Stats::others_text))]
fn push_others(text: &mut Vec<u8>, counts: Counts) -> Result<(), AllocError>
    ensures { OnOk result (text.new.items ≡ text.old.items ++ others_text counts) }
{
    push_count(text, b"pairs_apart", counts.apart)?;
    push_count(text, b"pairs_open", counts.open_pairs)?;
    push_count(text, b"outputs_open", counts.open_outputs)?;
    push_count(text, b"conflicts", counts.conflicts)?;
    push_count(text, b"steps", counts.steps)?;
    Ok(())
}

#[tactic(auto, unfolding(crate::specs::Stats::times_text))]
fn push_times(text: &mut Vec<u8>, times: Times) -> Result<(), AllocError>
    ensures { OnOk result (text.new.items ≡ text.old.items ++ times_text times) }
{
    push_time(text, b"seconds_reading", times.reading)?;
    push_time(text, b"seconds_check", times.checking)?;
    push_parts(text, times)?;
    push_time(text, b"seconds_files", times.telling)
}

#[tactic(auto, unfolding(crate::specs::Stats::parts_text))]
fn push_parts(text: &mut Vec<u8>, times: Times) -> Result<(), AllocError>
    ensures { OnOk result (text.new.items ≡ text.old.items ++ parts_text times) }
{
    push_time(text, b"seconds_structure", times.structure)?;
    push_time(text, b"seconds_sweep", times.sweep)?;
    push_time(text, b"seconds_outputs", times.outputs)
}

/// Appends the line of a number.
#[tactic(auto, unfolding(crate::specs::Stats::count_line))]
fn push_count(text: &mut Vec<u8>, name: &[u8], number: u64) -> Result<(), AllocError>
    ensures { OnOk result (text.new.items ≡ text.old.items ++ count_line name.now number) }
{
    text.extend_from_slice(b"cec: ")?;
    text.extend_from_slice(name)?;
    text.extend_from_slice(b" ")?;
    push_decimal(text, number)?;
    text.extend_from_slice(b"\n")
}

/// Appends the line of a number, if it is known.
fn push_known(text: &mut Vec<u8>, name: &[u8], number: Option<u64>) -> Result<(), AllocError>
    ensures { OnOk result (text.new.items ≡ text.old.items ++ known_line name.now number) }
{
    match number {
        Some(number) => push_count(text, name, number),
        None => Ok(()),
    }
}

/// Appends the line of a time, if it is known.
fn push_time(text: &mut Vec<u8>, name: &[u8], time: Option<u64>) -> Result<(), AllocError>
    ensures { OnOk result (text.new.items ≡ text.old.items ++ time_line name.now time) }
{
    match time {
        Some(time) => push_seconds(text, name, time),
        None => Ok(()),
    }
}

/// Appends the line of a time: its seconds, with three decimals.
#[tactic(auto, unfolding(crate::specs::Stats::seconds_line))]
fn push_seconds(text: &mut Vec<u8>, name: &[u8], time: u64) -> Result<(), AllocError>
    ensures { OnOk result (text.new.items ≡ text.old.items ++ seconds_line name.now time) }
{
    text.extend_from_slice(b"cec: ")?;
    text.extend_from_slice(name)?;
    text.extend_from_slice(b" ")?;
    push_decimal(text, time / 1000)?;
    text.extend_from_slice(b".")?;
    push_decimal(text, time / 100 % 10)?;
    push_decimal(text, time / 10 % 10)?;
    push_decimal(text, time % 10)?;
    text.extend_from_slice(b"\n")
}

pub(crate) fn push_decimal(text: &mut Vec<u8>, number: u64) -> Result<(), AllocError>
    ensures { OnOk result (text.new.items ≡ text.old.items ++ decimal number) }
{
    text.extend_from_slice(Buffer::new().format(number).as_bytes())
}
