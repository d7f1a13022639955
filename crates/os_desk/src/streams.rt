//! Loops over std's `read` and `write`. Each error of std ends the loop.
ghost use Rattle.std.specs.Prelude.{[], ◌≡◌, ◌≢◌, ◌<◌, ◌≤◌, IfErr, IfOk, IfSome, OnErr, OnOk};
ghost use Rattle.std.specs.Prelude.{false, length, take, true};
ghost use Rattle.std.specs.Io.KnownBytes.{Appends};
ghost use Rattle.desk_port.specs.Desk.{OfSomePrefix};
ghost use Rattle.os_desk.specs.Streams.{Gets, IsDone};

use desk_port::{PutErr, ReadErr};
use std::alloc::Global;
use std::io::{Read, Write};

// How many bytes one read asks for at most.
const PIECE: usize = 262144;

/// The bytes of the file, where it has at most `limit`. Of a longer one no more than one byte past the limit
/// is read.
pub fn read_within<F: Read>(file: &mut F, alloc: Global, limit: u64) -> Result<Vec<u8>, ReadErr>
    ensures limit { IfOk result (λ v. length v.items ≤ limit) }
    ensures bytes { IfOk result
        (λ v. limit < u64.MAX → IfSome (F.remaining file.old) (λ all. v.items ≡ all)) }
    ensures long { IfErr result (λ e. e ≡ ReadErr.TooLong →
        IfSome (F.remaining file.old) (λ all. limit < length all)) }
{
    let bytes = read_up_to(file, alloc, limit.saturating_add(1))?;
    if bytes.len() as u64 > limit {
        return Err(ReadErr::TooLong);
    }
    Ok(bytes)
}

/// The first `most` bytes of the file, or all where it has fewer. No more are read.
///
/// A read that gives nothing ends the file.
fn read_up_to<F: Read>(file: &mut F, alloc: Global, most: u64) -> Result<Vec<u8>, ReadErr>
    ensures most { IfOk result (λ v. length v.items ≤ most) }
    ensures failed { IfErr result (λ e. e ≢ ReadErr.TooLong) }
    ensures bytes { IfOk result
        (λ v. IfSome (F.remaining file.old) (λ all. v.items ≡ take most all)) }
{
    let mut piece = vec![in alloc; 0u8; PIECE]?;
    read_by(file, alloc, most, &mut piece)
}

// The same, with room for one read.
fn read_by<F: Read>(
    file: &mut F,
    alloc: Global,
    most: u64,
    piece: &mut [u8],
) -> Result<Vec<u8>, ReadErr>
    requires { 0 < length piece.old }
    ensures most { IfOk result (λ v. length v.items ≤ most) }
    ensures failed { IfErr result (λ e. e ≢ ReadErr.TooLong) }
    ensures bytes { IfOk result
        (λ v. IfSome (F.remaining file.old) (λ all. v.items ≡ take most all)) }
{
    let mut bytes = Vec::new(alloc);
    'pieces: while read_more(file, &mut bytes, most, piece)? {}
    Ok(bytes)
}

// Reads one piece more, if there is one and it may be read, and says so.
fn read_more<F: Read>(
    file: &mut F,
    bytes: &mut Vec<u8>,
    most: u64,
    piece: &mut [u8],
) -> Result<bool, ReadErr>
    requires piece { 0 < length piece.old }
    requires most { length bytes.old.items ≤ most }
    ensures most { length bytes.new.items ≤ most }
    ensures failed { IfErr result (λ e. e ≢ ReadErr.TooLong) }
    ensures bytes { IfOk result (λ _.
        Gets (F.remaining file.old) (F.remaining file.new) bytes.old.items bytes.new.items) }
    ensures more { IfOk result (λ more.
        more ≡ true → length bytes.old.items < length bytes.new.items) }
    ensures done { IfOk result (λ more.
        more ≡ false → IsDone (F.remaining file.new) most bytes.new.items) }
{
    let room = (most - bytes.len() as u64).min(piece.len() as u64) as usize;
    match file.read(&mut piece[..room]) {
        Ok(0) => Ok(false),
        Ok(n) => {
            bytes.extend_from_slice(&piece[..n])?;
            Ok(true)
        }
        Err(_) => Err(ReadErr::Failed),
    }
}

/// Puts all of the bytes, or fails after some first part of them.
///
/// A write that takes nothing counts as an error.
pub fn put_all<W: Write>(to: &mut W, bytes: &[u8]) -> Result<(), PutErr>
    ensures ok { OnOk result (Appends (W.contents to.old) (W.contents to.new) bytes.now) }
    ensures failed { IfErr result (λ e. e ≡ PutErr.Failed) }
    ensures part { OnErr result
        (OfSomePrefix bytes.now (λ part. Appends (W.contents to.old) (W.contents to.new) part)) }
{
    let mut done = 0usize;
    while done < bytes.len() {
        done += put_some(to, &bytes[done..])?;
    }
    Ok(())
}

// Puts some first part of the bytes, at least one, or nothing.
fn put_some<W: Write>(to: &mut W, bytes: &[u8]) -> Result<usize, PutErr>
    ensures some { IfOk result (λ n. 0 < n) }
    ensures bound { IfOk result (λ n. n ≤ length bytes.now) }
    ensures ok { IfOk result (λ n.
        Appends (W.contents to.old) (W.contents to.new) (take n bytes.now)) }
    ensures failed { IfErr result (λ e. e ≡ PutErr.Failed) }
    ensures nothing { OnErr result (Appends (W.contents to.old) (W.contents to.new) []) }
{
    match to.write(bytes) {
        Ok(0) => Err(PutErr::Failed),
        Ok(n) => Ok(n),
        Err(_) => Err(PutErr::Failed),
    }
}
