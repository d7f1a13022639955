ghost use Rattle.std.specs.Prelude.{◌≡◌, ◌+◌, ◌-◌, ◌*◌, ◌≤◌, ◌<◌, min, length, IfSome, IsTrue, slice_get};
ghost use Rattle.std.specs.Char.{is_ascii_digit};
ghost use Rattle.std.specs.Option.{option_copied};
ghost use Rattle.byte_scan.specs.Scanning.{digits, value, line_of};

use memchr::memchr;
use std::marker::Model;

/// Greater numbers count as this one, so that no number wraps.
pub const NUMBER_LIMIT: u64 = 1_000_000_000_000_000_000;

/// The bytes of an input, read from the front.
#[derive(Drop)]
pub struct Scan<'a> {
    bytes: &'a [u8],
    at: usize,
}

impl<'a> Model for Scan<'a> {
    ghost use Rattle.std.specs.Prelude.{◌≤◌, length};
    ghost use Rattle.byte_scan.specs.Scanning.{Place};

    ghost Value = { Place };

    ghost view = { λ s. record { bytes = s.bytes.now; at = s.at } };

    ghost invariant = { λ s. s.at ≤ length s.bytes.now };
}

impl<'a> Scan<'a> {
    ghost use Rattle.byte_scan.specs.Scanning.{ahead, moved, digits, number_of, line_of, next_line};

    /// At the front of the bytes.
    pub fn new(bytes: &'a [u8]) -> Scan<'a>
        ensures bytes { result.bytes ≡ bytes.now }
        ensures at { result.at ≡ 0 }
    {
        Scan { bytes, at: 0 }
    }

    /// How many bytes lie behind.
    pub fn at(&self) -> u64
        ensures at { result ≡ self.now.at }
        ensures within { result ≤ length self.now.bytes }
    {
        self.at as u64
    }

    /// The next byte, which then lies behind.
    pub fn byte(&mut self) -> Option<u8>
        ensures byte { result ≡ slice_get (ahead self.old) 0 }
        ensures range { IfSome result (λ b. b < 256) }
        ensures moved { self.new ≡ moved self.old 1 }
    {
        let byte = *self.bytes.get(self.at)?;
        self.at += 1;
        Some(byte)
    }

    /// The next decimal number: one or more digits, with or without leading zeros. A number above
    /// `NUMBER_LIMIT` counts as that. Where no digit stands nothing is consumed.
    pub fn number(&mut self) -> Option<u64>
        ensures number { result ≡ number_of (ahead self.old) }
        ensures moved { self.new ≡ moved self.old (length (digits (ahead self.old))) }
    {
        let (value, len) = leading_number(self.bytes.split_at(self.at).1);
        self.at += len;
        if len == 0 { None } else { Some(value) }
    }

    /// The bytes up to the next LF, which is consumed and not given, or up to the end.
    pub fn line(&mut self) -> Option<&'a [u8]>
        ensures line { option_copied result ≡ next_line (ahead self.old) }
        ensures moved { self.new ≡ moved self.old (length (line_of (ahead self.old)) + 1) }
    {
        let (_, rest) = self.bytes.split_at(self.at);
        if rest.is_empty() {
            return None;
        }
        let line = first_line(rest);
        self.at = (self.at + line.len() + 1).min(self.bytes.len());
        Some(line)
    }
}

/// The value and the number of the digits in front.
pub(crate) fn leading_number(bytes: &[u8]) -> (u64, usize)
    ensures value { result.0 ≡ value (digits bytes.now) }
    ensures len { result.1 ≡ length (digits bytes.now) }
    ensures within { result.1 ≤ length bytes.now }
{
    let mut value = 0;
    for (i, b) in bytes.iter().enumerate() {
        if !b.is_ascii_digit() {
            return (value, i);
        }
        value = with_digit(value, *b);
    }
    (value, bytes.len())
}

/// A number with one more digit at its end.
fn with_digit(value: u64, digit: u8) -> u64
    requires most { value ≤ NUMBER_LIMIT }
    requires digit { IsTrue (is_ascii_digit digit) }
    ensures { result ≡ min (value * 10 + (digit - 48)) NUMBER_LIMIT }
{
    (value * 10 + u64::from(digit - b'0')).min(NUMBER_LIMIT)
}

/// The bytes before the first LF, or all where there is none.
fn first_line(bytes: &[u8]) -> &[u8]
    ensures line { result.now ≡ line_of bytes.now }
    ensures within { length result.now ≤ length bytes.now }
{
    match memchr(b'\n', bytes) {
        Some(len) => bytes.split_at(len).0,
        None => bytes,
    }
}
