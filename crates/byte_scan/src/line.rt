ghost use Rattle.std.specs.Prelude.{◌≡◌, ◌+◌, ◌*◌, ◌≤◌, length, Err, IfOk, IfErr, OnErr};
ghost use Rattle.byte_scan.specs.Scanning.{ahead, digits, moved};
ghost use Rattle.byte_scan.specs.Reading.{Passes, Reads, number_at, space_at, line_end_at, number_line_at, literal_line_at, misplaced_as, used};

use crate::errors::AigerErr;
use crate::header_line::VARIABLE_LIMIT;
use crate::scan::Scan;

/// Reads the number that is due. Where none stands, the byte that stands there then lies behind.
pub fn number(scan: &mut Scan) -> Result<u64, AigerErr>
    ensures reads { Reads result scan.new (number_at scan.old) }
    ensures fault { IfErr result (λ e. number_at scan.old ≡ Err e) }
    ensures behind { OnErr result (scan.new ≡ moved scan.old 1) }
{
    let at = scan.at();
    match scan.number() {
        Some(n) => Ok(n),
        None => Err(misplaced(at, scan.byte())),
    }
}

/// Reads the space that is due. The byte that stands there then lies behind, whatever it is.
pub fn space(scan: &mut Scan) -> Result<(), AigerErr>
    ensures reads { Passes result scan.new (space_at scan.old) }
    ensures fault { IfErr result (λ e. space_at scan.old ≡ Err e) }
    ensures behind { scan.new ≡ moved scan.old 1 }
{
    let at = scan.at();
    match scan.byte() {
        Some(b' ') => Ok(()),
        found => Err(misplaced(at, found)),
    }
}

/// Reads the end of the line that is due: its LF, or the end of input.
fn line_end(scan: &mut Scan) -> Result<(), AigerErr>
    ensures reads { Passes result scan.new (line_end_at scan.old) }
    ensures fault { IfErr result (λ e. line_end_at scan.old ≡ Err e) }
    ensures behind { scan.new ≡ moved scan.old 1 }
{
    let at = scan.at();
    match scan.byte() {
        None | Some(b'\n') => Ok(()),
        found => Err(misplaced(at, found)),
    }
}

/// The fault of a byte, or of the end of input, that stands where something else is due.
fn misplaced(at: u64, found: Option<u8>) -> AigerErr
    ensures { result ≡ misplaced_as at found }
{
    match found {
        Some(_) => AigerErr::BadNumber(at),
        None => AigerErr::Truncated(at),
    }
}

/// Reads a line of one number. The digits in front and the byte behind them then lie behind, also where there
/// is a fault.
pub fn number_line(scan: &mut Scan) -> Result<u64, AigerErr>
    ensures reads { Reads result scan.new (number_line_at scan.old) }
    ensures fault { IfErr result (λ e. number_line_at scan.old ≡ Err e) }
    ensures behind { scan.new ≡ moved scan.old (length (digits (ahead scan.old)) + 1) }
{
    let n = number(scan)?;
    line_end(scan)?;
    Ok(n)
}

/// Reads a line of one literal that is used, where `most` is the greatest variable. The digits in front and
/// the byte behind them then lie behind, also where there is a fault.
pub fn literal_line(scan: &mut Scan, most: u32) -> Result<u32, AigerErr>
    requires { most ≤ VARIABLE_LIMIT }
    ensures reads { Reads result scan.new (literal_line_at most scan.old) }
    ensures fault { IfErr result (λ e. literal_line_at most scan.old ≡ Err e) }
    ensures within { IfOk result (λ n. n ≤ 2 * most + 1) }
    ensures behind { scan.new ≡ moved scan.old (length (digits (ahead scan.old)) + 1) }
{
    let n = number_line(scan)?;
    used(n, most)
}

/// A literal that is used, where `most` is the greatest variable.
pub fn used(n: u64, most: u32) -> Result<u32, AigerErr>
    requires { most ≤ VARIABLE_LIMIT }
    ensures used { result ≡ used most n }
    ensures within { IfOk result (λ lit. lit ≤ 2 * most + 1) }
{
    if n > 2 * u64::from(most) + 1 {
        return Err(AigerErr::BadLiteral(n));
    }
    Ok(n as u32)
}
