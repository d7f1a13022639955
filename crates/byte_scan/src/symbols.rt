ghost use Rattle.std.specs.Prelude.{◌≡◌, ◌+◌, ◌<◌, true, false, length, drop, slice_set, IfNone, IfOk, IfSome};
ghost use Rattle.symbol_names.specs.NameList.{name_of};
ghost use Rattle.symbol_names.specs.Names.{AreNames};
ghost use Rattle.byte_scan.specs.Scanning.{digits, value};
ghost use Rattle.byte_scan.specs.Reading.{Ends, Gives, begins_with, behind_tail, is_named, is_symbol, lines_ahead, tail_of, with_symbol};

use crate::errors::AigerErr;
use crate::scan::{Scan, leading_number};
use std::alloc::{AllocError, Global};
use symbol_names::{NameList, Names};

/// Reads what stands behind the last gate: symbols of the inputs and outputs, of which there are so many, up
/// to the end of the input or to a comment. A name is that of the last symbol for its place, and an empty one
/// is none. Names take memory where there are symbols, and only there. The scan then stands behind the line
/// that begins the comment or is no symbol line, and else at the end.
pub fn tail(alloc: Global, scan: &mut Scan, inputs: u32, outputs: u32) -> Result<Names, AigerErr>
    ensures reads { Gives result (tail_of inputs outputs (lines_ahead scan.old)) }
    ensures names { IfOk result (AreNames inputs outputs) }
    ensures ends { Ends result scan.new (behind_tail inputs outputs scan.old) }
{
    let mut names = Names::none(alloc, inputs, outputs);
    let mut at = scan.at();
    while let Some(line) = scan.line() {
        if begins_with(line, b'c') {
            return Ok(names);
        }
        if !put_symbol(&mut names, line, inputs, outputs)? {
            return Err(AigerErr::BadSymbol(at));
        }
        at = scan.at();
    }
    Ok(names)
}

/// Puts the name of a symbol line, `i` or `o`, a number below that of the inputs or outputs, a space and any
/// bytes, in place of the one that was there; `false` where the line is none.
fn put_symbol(names: &mut Names, line: &[u8], inputs: u32, outputs: u32) -> Result<bool, AllocError>
    requires inputs { length names.old.inputs ≡ inputs }
    requires outputs { length names.old.outputs ≡ outputs }
    ensures is { IfOk result (λ is. is ≡ is_symbol inputs outputs line.now) }
    ensures put { IfOk result (λ is. is ≡ true → names.new ≡ with_symbol line.now names.old) }
{
    match line {
        [b'i', text @ ..] => put_name(&mut names.inputs, text, inputs),
        [b'o', text @ ..] => put_name(&mut names.outputs, text, outputs),
        _ => Ok(false),
    }
}

/// Puts the name of the text behind a symbol line's letter; `false` where it is none.
fn put_name(names: &mut NameList, text: &[u8], count: u32) -> Result<bool, AllocError>
    requires { length names.old ≡ count }
    ensures is { IfOk result (λ is. is ≡ is_named count text.now) }
    ensures put { IfOk result (λ is. is ≡ true → names.new ≡ slice_set names.old
        (value (digits text.now)) (name_of (drop (length (digits text.now) + 1) text.now))) }
{
    match placed_name(text, count) {
        Some((place, name)) => {
            names.set(place, name)?;
            Ok(true)
        }
        None => Ok(false),
    }
}

/// The place, below this number, and the name behind a space, which may be any bytes.
fn placed_name(text: &[u8], count: u32) -> Option<(u32, &[u8])>
    ensures none { IfNone result (is_named count text.now ≡ false) }
    ensures some { IfSome result (λ r. is_named count text.now ≡ true) }
    ensures place { IfSome result (λ r. (r.0 ≡ value (digits text.now)) × (r.0 < count)) }
    ensures name { IfSome result (λ r. r.1.now ≡ drop (length (digits text.now) + 1) text.now) }
{
    let (value, len) = leading_number(text);
    if len == 0 || value >= u64::from(count) {
        return None;
    }
    match text.split_at(len).1 {
        [b' ', name @ ..] => Some((value as u32, name)),
        _ => None,
    }
}

fn begins_with(text: &[u8], byte: u8) -> bool
    ensures { result ≡ begins_with byte text.now }
{
    match text {
        [first, ..] => *first == byte,
        [] => false,
    }
}
