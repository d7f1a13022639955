ghost use Rattle.std.specs.Prelude.{◌≡◌, ◌++◌, IfOk, string_bytes, codes, decimal, encode_utf8};
ghost use Rattle.cec_top.specs.Lines.{aiger_text, edit_text, lemma_text, port_text, refused_text, unlike_text};

use book_file::BookErr;
use byte_scan::AigerErr;
use itoa::Buffer;
use lits::Side;
use netlist::{Port, Unlike};
use netlist_edits::EditErr;
use std::alloc::{AllocError, Global};

/// The text of a fault of an AIGER file.
#[tactic(auto, unfolding(crate::specs::Lines::aiger_text))]
pub(crate) fn aiger_fault(alloc: Global, fault: AigerErr) -> Result<String, AllocError>
    ensures { IfOk result (λ s. string_bytes s ≡ aiger_text fault) }
{
    match fault {
        AigerErr::BadHeader => String::from_str(alloc, "bad header"),
        AigerErr::TooLarge(n) => around(alloc, "", n, " is above 16777216"),
        AigerErr::HasLatches(n) => around(alloc, "", n, " latches"),
        AigerErr::HasProperty(letter) => section_fault(alloc, char::from(letter)),
        AigerErr::BadNumber(at) => before(alloc, "bad number at byte ", at),
        AigerErr::BadLiteral(n) => before(alloc, "bad literal ", n),
        AigerErr::DefinedTwice(n) => around(alloc, "literal ", n, " is defined twice"),
        AigerErr::Undefined(n) => around(alloc, "literal ", n, " is undefined"),
        AigerErr::Cycle(n) => around(alloc, "literal ", n, " is on or above a cycle"),
        AigerErr::BadDelta(gate) => before(alloc, "bad delta at gate ", gate),
        AigerErr::Truncated(at) => before(alloc, "ends too early at byte ", at),
        AigerErr::BadSymbol(at) => before(alloc, "bad symbol line at byte ", at),
        AigerErr::NoMemory => String::from_str(alloc, "out of memory"),
    }
}

/// The text of a section that the program doesn't take.
fn section_fault(alloc: Global, letter: char) -> Result<String, AllocError>
    ensures { IfOk result (λ s. string_bytes s
        ≡ codes "section " ++ encode_utf8 letter ++ codes " is not supported") }
{
    format!(in alloc; "section {letter} is not supported")
}

/// Words, and a number behind them.
fn before(alloc: Global, words: &str, number: u64) -> Result<String, AllocError>
    ensures { IfOk result (λ s. string_bytes s ≡ words.now ++ decimal number) }
{
    let mut text = String::from_str(alloc, words)?;
    text.push_str(Buffer::new().format(number))?;
    Ok(text)
}

/// Words on both sides of a number.
fn around(alloc: Global, words: &str, number: u64, others: &str) -> Result<String, AllocError>
    ensures { IfOk result (λ s. string_bytes s ≡ words.now ++ decimal number ++ others.now) }
{
    let mut text = before(alloc, words, number)?;
    text.push_str(others)?;
    Ok(text)
}

/// The text of circuits that can't be compared.
#[tactic(auto, unfolding(crate::specs::Lines::unlike_text))]
pub(crate) fn unlike_fault(alloc: Global, fault: Unlike) -> Result<String, AllocError>
    ensures { IfOk result (λ s. string_bytes s ≡ unlike_text fault) }
{
    match fault {
        Unlike::Inputs(a, b) => differing(alloc, "inputs ", a, b),
        Unlike::Outputs(a, b) => differing(alloc, "outputs ", a, b),
        Unlike::NoName(Side::A, port, k) => port_fault(alloc, port, k, " of a has no name"),
        Unlike::NoName(Side::B, port, k) => port_fault(alloc, port, k, " of b has no name"),
        Unlike::Doubled(Side::A, port, k) => {
            port_fault(alloc, port, k, " of a has the name of an earlier one")
        }
        Unlike::Doubled(Side::B, port, k) => {
            port_fault(alloc, port, k, " of b has the name of an earlier one")
        }
        Unlike::Missing(port, k) => port_fault(alloc, port, k, " of a is missing in b"),
        Unlike::NoMemory => String::from_str(alloc, "out of memory"),
    }
}

/// What is wrong with the name of an input or output.
fn port_fault(alloc: Global, port: Port, k: u32, words: &str) -> Result<String, AllocError>
    ensures { IfOk result (λ s. string_bytes s ≡ port_text port ++ decimal k ++ words.now) }
{
    match port {
        Port::Input => around(alloc, "input ", u64::from(k), words),
        Port::Output => around(alloc, "output ", u64::from(k), words),
    }
}

/// One line for both numbers that a pair must have in common.
fn differing(alloc: Global, what: &str, a: u32, b: u32) -> Result<String, AllocError>
    ensures { IfOk result
        (λ s. string_bytes s ≡ what.now ++ decimal a ++ codes " and " ++ decimal b ++ codes " differ") }
{
    let mut text = String::from_str(alloc, what)?;
    text.push_str(Buffer::new().format(a))?;
    text.push_str(" and ")?;
    text.push_str(Buffer::new().format(b))?;
    text.push_str(" differ")?;
    Ok(text)
}

/// The text of a fault of bytes that are no lemma file.
#[tactic(auto, unfolding(crate::specs::Lines::lemma_text))]
pub(crate) fn lemma_fault(alloc: Global, fault: BookErr) -> Result<String, AllocError>
    ensures { IfOk result (λ s. string_bytes s ≡ lemma_text fault) }
{
    match fault {
        BookErr::BadLine(line) => around(alloc, "line ", line, ": bad line"),
        BookErr::Truncated(line) => around(alloc, "line ", line, ": ends too early"),
        BookErr::NoMemory => String::from_str(alloc, "out of memory"),
    }
}

/// The text of a fault of an edit, or of a line that spells none.
#[tactic(auto, unfolding(crate::specs::Lines::edit_text))]
fn edit_fault(alloc: Global, fault: EditErr) -> Result<String, AllocError>
    ensures { IfOk result (λ s. string_bytes s ≡ edit_text fault) }
{
    match fault {
        EditErr::BadLine => String::from_str(alloc, "bad line"),
        EditErr::NoGate(n) => before(alloc, "no gate ", u64::from(n)),
        EditErr::NoLiteral(n) => before(alloc, "no literal ", u64::from(n)),
        EditErr::NotEarlier(n) => around(alloc, "literal ", u64::from(n), " is not earlier"),
        EditErr::Taken(n) => around(alloc, "literal ", u64::from(n), " is taken"),
        EditErr::InUse(n) => around(alloc, "gate ", u64::from(n), " is in use"),
        EditErr::NoOutput(j) => before(alloc, "no output ", u64::from(j)),
        EditErr::GateLimit => String::from_str(alloc, "too many gates"),
        EditErr::NoMemory => String::from_str(alloc, "out of memory"),
    }
}

/// The text of a script's line that is refused.
#[tactic(auto, unfolding(crate::specs::Lines::refused_text))]
pub(crate) fn refused_fault(alloc: Global, line: u64, fault: EditErr) -> Result<String, AllocError>
    ensures { IfOk result (λ s. string_bytes s ≡ refused_text (record { line = line; fault = fault })) }
{
    let mut text = around(alloc, "line ", line, ": ")?;
    let fault = edit_fault(alloc, fault)?;
    text.push_str(fault.as_str())?;
    Ok(text)
}
