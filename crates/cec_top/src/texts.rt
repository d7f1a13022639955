ghost use Rattle.std.specs.Prelude.{◌≡◌, ◌++◌, decimal, map, IfOk, OnOk};
ghost use Rattle.command_line.specs.Answers.{self_texts};
ghost use Rattle.command_line.specs.Plain.{kind_name};
ghost use Rattle.cec_top.specs.Check.{text_of};
ghost use Rattle.cec_top.specs.Steps.{opens_in};
ghost use Rattle.check_session.specs.Outputs.{finding_of};
ghost use Rattle.cec_top.specs.Texts.{digit_of, input_text, lemmas_line, output_line, span_line, different_text, open_text, open_text_with, workload_text};
ghost use Rattle.cec_top.specs.Fraig.{reduced_text};

use check_session::Verdict;
use command_line::SelfWords;
use itoa::Buffer;
use lits::Side;
use netlist::Net;
use proof_stitch::Span;
use std::alloc::{AllocError, Global};
use workload_gen::Kind;

/// The text of a verdict that leaves no files.
pub(crate) fn plain_text(alloc: Global, verdict: &Verdict) -> Result<Vec<u8>, AllocError>
    ensures { IfOk result
        (λ v. v.items ≡ text_of (finding_of verdict.now) (open_text (opens_in verdict.now))) }
{
    match verdict {
        Verdict::Equivalent => Vec::from_slice(alloc, b"EQUIVALENT\n"),
        Verdict::Different { output, input } => different_text(alloc, *output, input.as_slice()),
        Verdict::Undecided { outputs } => open_text(alloc, outputs.as_slice()),
    }
}

/// The text of a verdict whose proof's file has the logs of open outputs at these lines.
pub(crate) fn text_with_lines(
    alloc: Global,
    spans: &[Span],
    verdict: &Verdict,
) -> Result<Vec<u8>, AllocError>
    ensures { IfOk result (λ v. v.items ≡ text_of (finding_of verdict.now) (open_text_with spans.now)) }
{
    match verdict {
        Verdict::Equivalent => Vec::from_slice(alloc, b"EQUIVALENT\n"),
        Verdict::Different { output, input } => different_text(alloc, *output, input.as_slice()),
        Verdict::Undecided { .. } => open_text_with(alloc, spans),
    }
}

/// The text of an output that differs on an input.
#[tactic(auto, unfolding(crate::specs::Texts::different_text))]
fn different_text(alloc: Global, output: u32, input: &[bool]) -> Result<Vec<u8>, AllocError>
    ensures { IfOk result (λ v. v.items ≡ different_text output input.now) }
{
    let mut text = Vec::new(alloc);
    text.extend_from_slice(b"DIFFERENT\n")?;
    push_output(&mut text, output)?;
    text.extend_from_slice(b"input ")?;
    push_input(&mut text, input)?;
    text.extend_from_slice(b"\n")?;
    Ok(text)
}

/// The text of the outputs that are left open.
#[tactic(auto, unfolding(crate::specs::Texts::open_text))]
fn open_text(alloc: Global, outputs: &[u32]) -> Result<Vec<u8>, AllocError>
    ensures { IfOk result (λ v. v.items ≡ open_text outputs.now) }
{
    let mut text = Vec::from_slice(alloc, b"UNDECIDED\n")?;
    for output in outputs {
        push_output(&mut text, *output)?;
    }
    Ok(text)
}

/// The text of the outputs that are left open, with the lines of their logs.
#[tactic(auto, unfolding(crate::specs::Texts::open_text_with))]
fn open_text_with(alloc: Global, spans: &[Span]) -> Result<Vec<u8>, AllocError>
    ensures { IfOk result (λ v. v.items ≡ open_text_with spans.now) }
{
    let mut text = Vec::from_slice(alloc, b"UNDECIDED\n")?;
    for span in spans {
        push_span(&mut text, *span)?;
    }
    Ok(text)
}

/// Appends the line of an output that is left open, where no proof is left.
#[tactic(auto, unfolding(crate::specs::Texts::output_line))]
fn push_output(text: &mut Vec<u8>, output: u32) -> Result<(), AllocError>
    ensures { OnOk result (text.new.items ≡ text.old.items ++ output_line output) }
{
    push_number(text, b"output ", u64::from(output))?;
    text.extend_from_slice(b"\n")
}

/// Appends the line of an output that is left open, with the lines of the proof that are its log.
#[tactic(auto, unfolding(crate::specs::Texts::span_line))]
fn push_span(text: &mut Vec<u8>, span: Span) -> Result<(), AllocError>
    ensures { OnOk result (text.new.items ≡ text.old.items ++ span_line span) }
{
    push_number(text, b"output ", u64::from(span.output))?;
    push_number(text, b" lines ", span.first)?;
    push_number(text, b"-", span.last)?;
    text.extend_from_slice(b"\n")
}

/// How many lemmas of a file were taken, of how many.
#[tactic(auto, unfolding(crate::specs::Texts::lemmas_line))]
pub(crate) fn lemmas_line(alloc: Global, taken: u64, given: u64) -> Result<Vec<u8>, AllocError>
    ensures { IfOk result (λ v. v.items ≡ lemmas_line taken given) }
{
    let mut text = Vec::new(alloc);
    push_number(&mut text, b"lemmas ", taken)?;
    push_number(&mut text, b" of ", given)?;
    text.extend_from_slice(b"\n")?;
    Ok(text)
}

/// Appends a label and the number behind it.
fn push_number(text: &mut Vec<u8>, label: &[u8], number: u64) -> Result<(), AllocError>
    ensures { OnOk result (text.new.items ≡ text.old.items ++ label.now ++ decimal number) }
{
    text.extend_from_slice(label)?;
    text.extend_from_slice(Buffer::new().format(number).as_bytes())
}

/// Puts the inputs' truth values, input 0 first.
#[tactic(auto, unfolding(crate::specs::Texts::input_text))]
fn push_input(text: &mut Vec<u8>, input: &[bool]) -> Result<(), AllocError>
    ensures { OnOk result (text.new.items ≡ text.old.items ++ input_text input.now) }
{
    if input.is_empty() {
        text.extend_from_slice(b"none")?;
        return Ok(());
    }
    push_digits(text, input)
}

/// Appends an input as digits, input 0 first.
pub(crate) fn push_digits(text: &mut Vec<u8>, input: &[bool]) -> Result<(), AllocError>
    ensures { OnOk result (text.new.items ≡ text.old.items ++ map digit_of input.now) }
{
    for bit in input {
        text.push(digit_of(*bit))?;
    }
    Ok(())
}

pub(crate) fn digit_of(bit: bool) -> u8
    ensures { result ≡ digit_of bit }
{
    if bit { b'1' } else { b'0' }
}

/// The lines that tell of two circuits that the program makes.
#[tactic(auto, unfolding(crate::specs::Texts::workload_text))]
pub(crate) fn workload_text(
    alloc: Global,
    words: SelfWords,
    net: &Net,
) -> Result<Vec<u8>, AllocError>
    ensures { IfOk result (λ v. v.items ≡ workload_text (self_texts words) net.now) }
{
    let (a, b) = (net.circuit(Side::A), net.circuit(Side::B));
    let mut text = Vec::from_slice(alloc, b"kind ")?;
    text.extend_from_slice(kind_name(words.kind).as_bytes())?;
    push_number(&mut text, b" n ", u64::from(words.n))?;
    push_number(&mut text, b"\ngates ", a.gates().len() as u64)?;
    push_number(&mut text, b" ", b.gates().len() as u64)?;
    push_number(&mut text, b"\noutputs ", u64::from(net.outputs()))?;
    text.extend_from_slice(b"\n")?;
    Ok(text)
}

/// How many gates a circuit and its reduced one have, and that they are equivalent.
#[tactic(auto, unfolding(crate::specs::Fraig::reduced_text))]
pub(crate) fn reduced_text(alloc: Global, net: &Net) -> Result<Vec<u8>, AllocError>
    ensures { IfOk result (λ v. v.items ≡ reduced_text net.now) }
{
    let (a, b) = (net.circuit(Side::A), net.circuit(Side::B));
    let mut text = Vec::new(alloc);
    push_number(&mut text, b"gates ", a.gates().len() as u64)?;
    push_number(&mut text, b" ", b.gates().len() as u64)?;
    text.extend_from_slice(b"\nEQUIVALENT\n")?;
    Ok(text)
}

fn kind_name(kind: Kind) -> &'static str
    ensures { result.now ≡ kind_name kind }
{
    match kind {
        Kind::Adder => "adder",
        Kind::Parity => "parity",
        Kind::Comparator => "comparator",
    }
}
