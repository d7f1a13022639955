ghost use Rattle.std.specs.Prelude.{◌≡◌, ◌+◌, ◌≤◌, All, length, nat_lt, IfNone, IfOk, IfErr, Err, Some, None, if◌then◌else◌, option_map};
ghost use Rattle.std.specs.List.{find};
ghost use Rattle.byte_scan.specs.Scanning.{ahead, line_of, moved, value};
ghost use Rattle.byte_scan.specs.Reading.{Reads, header_at};
ghost use Rattle.byte_scan.specs.HeaderLine.{IsFit, header_numbers, header_of, is_number, miscounts, nine_numbers, numbers_fault, property, words_of};
ghost use Rattle.byte_scan.specs.declared.errors.AigerErr.TheVariants.{HasProperty};

use crate::counts::Header;
use crate::errors::AigerErr;
use crate::scan::{Scan, leading_number};

/// The greatest number that a header may have, so the greatest variable, and number of outputs, of a file.
pub const VARIABLE_LIMIT: u64 = 16_777_216;

/// Reads the header line of an AIGER file: `aag`, or `aig` for the letter `i`, then five to nine
/// numbers M I L O A B C J F, each after one space. The line is consumed, also where it has a fault.
pub fn header(scan: &mut Scan, letter: u8) -> Result<Header, AigerErr>
    ensures reads { Reads result scan.new (header_at letter scan.old) }
    ensures fault { IfErr result (λ e. header_at letter scan.old ≡ Err e) }
    ensures fits { IfOk result (IsFit letter) }
    ensures behind { scan.new ≡ moved scan.old (length (line_of (ahead scan.old)) + 1) }
{
    let Some(line) = scan.line() else {
        return Err(AigerErr::BadHeader);
    };
    match tagged_numbers(line, letter) {
        Some(numbers) => judged(&numbers, letter),
        None => Err(AigerErr::BadHeader),
    }
}

/// The nine numbers of a header line.
fn tagged_numbers(line: &[u8], letter: u8) -> Option<[u64; 9]>
    ensures { result ≡ header_numbers letter line.now }
{
    match line {
        [b'a', second, b'g', b' ', text @ ..] if *second == letter => spaced_numbers(text),
        _ => None,
    }
}

/// Five to nine numbers with one space between; those that are missing are 0.
fn spaced_numbers(text: &[u8]) -> Option<[u64; 9]>
    ensures { result ≡ nine_numbers (words_of text.now) }
{
    let mut numbers = [0; 9];
    let mut count = 0;
    for word in text.split(|b| *b == b' ') {
        if count == 9 {
            return None;
        }
        numbers[count] = whole_number(word)?;
        count += 1;
    }
    if count < 5 { None } else { Some(numbers) }
}

/// The value of a word that is a number and nothing else.
fn whole_number(word: &[u8]) -> Option<u64>
    ensures { result ≡ (if is_number word.now then Some (value word.now) else None) }
{
    let (value, len) = leading_number(word);
    if word.is_empty() || len < word.len() {
        None
    } else {
        Some(value)
    }
}

/// The header of nine numbers, or their first fault.
fn judged(numbers: &[u64; 9], letter: u8) -> Result<Header, AigerErr>
    ensures header { IfOk result (λ h. h ≡ header_of numbers.now) }
    ensures fits { IfOk result (IsFit letter) }
    ensures sound { IfOk result (λ h. numbers_fault letter (Some numbers.now) ≡ None) }
    ensures fault { IfErr result (λ e. numbers_fault letter (Some numbers.now) ≡ Some e) }
{
    if let Some(n) = first_too_large(numbers) {
        return Err(AigerErr::TooLarge(n));
    }
    let header = named(numbers);
    if header.l > 0 {
        return Err(AigerErr::HasLatches(u64::from(header.l)));
    }
    if let Some(section) = section_with_property(&header) {
        return Err(AigerErr::HasProperty(section));
    }
    if is_miscounted(&header, letter) {
        return Err(AigerErr::BadHeader);
    }
    Ok(header)
}

/// The first number that no header may have.
fn first_too_large(numbers: &[u64; 9]) -> Option<u64>
    ensures first { result ≡ find (λ n. nat_lt VARIABLE_LIMIT n) numbers.now }
    ensures none { IfNone result (All (λ n. n ≤ VARIABLE_LIMIT) numbers.now) }
{
    numbers.iter().copied().find(|n| *n > VARIABLE_LIMIT)
}

/// Nine numbers under their letters.
fn named(numbers: &[u64; 9]) -> Header
    requires { All (λ n. n ≤ VARIABLE_LIMIT) numbers.now }
    ensures { result ≡ header_of numbers.now }
{
    Header {
        m: numbers[0] as u32,
        i: numbers[1] as u32,
        l: numbers[2] as u32,
        o: numbers[3] as u32,
        a: numbers[4] as u32,
        b: numbers[5] as u32,
        c: numbers[6] as u32,
        j: numbers[7] as u32,
        f: numbers[8] as u32,
    }
}

/// The letter of the first section that is not supported and not empty.
fn section_with_property(header: &Header) -> Option<u8>
    ensures { option_map HasProperty result ≡ property header.now }
{
    if header.b > 0 {
        Some(b'B')
    } else if header.j > 0 {
        Some(b'J')
    } else if header.f > 0 {
        Some(b'F')
    } else {
        None
    }
}

/// Whether M does not fit the numbers of inputs, latches and gates.
fn is_miscounted(header: &Header, letter: u8) -> bool
    ensures { result ≡ miscounts letter header.now }
{
    let most = u64::from(header.i) + u64::from(header.l) + u64::from(header.a);
    let m = u64::from(header.m);
    if letter == b'i' { m != most } else { m < most }
}
