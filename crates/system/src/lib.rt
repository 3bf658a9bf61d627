// What the programs ask of the system: their arguments, files by name, all bytes up to an end; and in `telling` the words for a fault, and that what was said is written.
#![tactic(auto)]

mod telling;

ghost use Rattle.std.specs.Prelude.{ℕ, false, ◌≡◌, ◌≢◌, ◌<◌, ◌≤◌, length, take, All, IfOk, IfErr, OnErr, OnOk};
ghost use Rattle.std.specs.Io.{ReadsAtMost, StartsWith};
ghost use Rattle.std.specs.Io.KnownBytes.{Appends, Consumes, IsAtEnd, Keeps};
ghost use Rattle.std.specs.IoError.{error_kind};

use std::env::FillError;
use std::fs::File;
use std::io::{Error, ErrorKind, Read, Result, Write};
use std::rt::{Env, Files};
pub use telling::{Stopped, fault, has_options, say, write_came, write_err, write_out, wrong};

// How often a read that a signal interrupted is tried again.
const TRIES: u32 = 1000000;

// One read; one that a signal interrupted is tried again.
pub fn read_once<R: Read>(from: &mut R, buf: &mut [u8]) -> Result<usize>
    ensures bound { ReadsAtMost result buf.new }
    ensures bytes { IfOk result (λ n. Consumes (R.remaining from.old) (R.remaining from.new) (take n buf.new)) }
    ensures end { IfOk result (λ n. n ≡ 0 → 0 < length buf.old → IsAtEnd (R.remaining from.new)) }
    ensures err { OnErr result (Keeps (R.remaining from.old) (R.remaining from.new)) }
{
    for _ in 0..TRIES {
        match from.read(buf) {
            Ok(n) => return Ok(n),
            Err(fault) => {
                if fault.kind() != ErrorKind::Interrupted {
                    return Err(fault);
                }
            }
        }
    }
    Err(Error::from(ErrorKind::Interrupted))
}

// Reads until the buffer is full or the end is there, and answers how many bytes came. Fewer than the buffer has came to the end; a read that fails is
// never taken for it, and what was read before stands at the buffer's start.
pub fn read_all<R: Read>(from: &mut R, buf: &mut [u8]) -> Result<usize>
    ensures bound { ReadsAtMost result buf.new }
    ensures bytes { IfOk result (λ n. Consumes (R.remaining from.old) (R.remaining from.new) (take n buf.new)) }
    ensures end { IfOk result (λ n. n < length buf.old → IsAtEnd (R.remaining from.new)) }
    ensures err { OnErr result ((n : ℕ) × (n ≤ length buf.new) × Consumes (R.remaining from.old) (R.remaining from.new) (take n buf.new)) }
{
    let mut n: usize = 0;
    // how far a read comes the reader says: there is nothing to iterate over
    while n < buf.len() {
        let k = read_once(from, &mut buf[n..])?;
        if k == 0 {
            return Ok(n);
        }
        n += k;
    }
    Ok(n)
}

// Writes all bytes, or stops at the first write that fails or takes nothing, with the first of them written: an interrupted one is not tried again.
pub fn write_whole<W: Write>(to: &mut W, bytes: &[u8]) -> Result<()>
    ensures ok { OnOk result (Appends (W.contents to.old) (W.contents to.new) bytes.now) }
    ensures err { OnErr result ((n : ℕ) × (n ≤ length bytes.now) × Appends (W.contents to.old) (W.contents to.new) (take n bytes.now)) }
{
    let mut rest = bytes;
    // std's write_all tries an interrupted write again
    while !rest.is_empty() {
        let n = to.write(rest)?;
        if n == 0 {
            return Err(Error::from(ErrorKind::WriteZero));
        }
        rest = &rest[n..];
    }
    Ok(())
}

// No fault has more words.
const LONGEST: usize = 256;

// Writes a line: what it is about, and what the system calls the fault, without the number that std puts after it. What cannot be written is let go.
pub fn fail(to: &impl Print, what: &[u8], fault: Error) {
    let mut text = [0u8; LONGEST];
    let mut rest: &mut [u8] = &mut text;
    let _ = write!(rest, "{fault}");
    let n = LONGEST.saturating_sub(rest.len());
    let _ = to.write_all(what);
    let _ = to.write_all(b": ");
    let _ = to.write_all(words(&text[..n], fault.raw_os_error().is_some()));
    let _ = to.write_all(b"\n");
}

// A fault's words, where a number in parentheses may stand after them.
fn words(text: &[u8], is_numbered: bool) -> &[u8]
    ensures front { StartsWith text.now result.now }
    ensures unnumbered { is_numbered ≡ false → result.now ≡ text.now }
{
    if is_numbered {
        if let Some(at) = text.iter().rposition(|b| *b == b'(') {
            return &text[..at.saturating_sub(1)];
        }
    }
    text
}

// Room for a name: no path is longer.
pub fn name_room() -> [u8; 4096]
    ensures size { 4096 ≡ length result }
    ensures zeros { All (λ b. b ≡ 0) result }
{
    [0; 4096]
}

// Linux's numbers of two faults.
const NO_ARGUMENT: i32 = 22;

const TOO_LONG: i32 = 36;

// Puts argument i at the start of a buffer, and answers its length.
pub fn argument(rt: &impl Env, i: usize, buf: &mut [u8]) -> Result<usize>
    ensures { ReadsAtMost result buf.new }
{
    rt.arg(i, buf).map_err(fault_of)
}

fn fault_of(why: FillError) -> Error {
    Error::from_raw_os_error(match why {
        FillError::TooLong => TOO_LONG,
        FillError::NotPresent => NO_ARGUMENT,
    })
}

// How many arguments there are, with the program's own name.
pub fn argument_count(rt: &impl Env) -> usize {
    (0..usize::MAX)
        .find(|i| matches!(rt.arg(*i, &mut []), Err(FillError::NotPresent)))
        .unwrap_or(usize::MAX)
}

// Opens the file that argument i names. A path of std is UTF-8. For a name that is not, whoever calls the program lends a link with the argument's
// number in the folder that the variable TEYK_LINKS names.
pub fn open_argument<R: Files + Env>(rt: &R, i: usize, name: &[u8]) -> Result<R::File> {
    match str::from_utf8(name) {
        Ok(path) => File::open(rt, path),
        Err(_) => open_link(rt, i),
    }
}

fn open_link<R: Files + Env>(rt: &R, i: usize) -> Result<R::File> {
    let mut path = name_room();
    let Ok(n) = rt.var("TEYK_LINKS", &mut path) else {
        return Err(Error::from(ErrorKind::InvalidFilename));
    };
    let room = path.len() - n;
    let mut rest = &mut path[n..];
    write!(rest, "/{i}")?;
    let end = n + room.saturating_sub(rest.len());
    match str::from_utf8(&path[..end]) {
        Ok(path) => File::open(rt, path),
        Err(_) => Err(Error::from(ErrorKind::InvalidFilename)),
    }
}

// Reads the file that argument i names, up to the buffer's end, and answers how many bytes came; `-` is standard input.
pub fn read_named(rt: &HostRuntime, i: usize, name: &[u8], buf: &mut [u8]) -> Result<usize>
    ensures { ReadsAtMost result buf.new }
{
    if name == b"-".as_slice() {
        return read_all(&mut rt.stdin(), buf);
    }
    read_all(&mut open_argument(rt, i, name)?, buf)
}

#[cfg(test)]
mod tests {
    use super::*;

    // A reader that gives three bytes a read: the second is interrupted, and the last fails or is the end.
    #[derive(Drop)]
    struct Pieces {
        reads: u8,
        fails: bool,
    }

    impl Read for Pieces {
        fn read(&mut self, buf: &mut [u8]) -> Result<usize> {
            self.reads = self.reads.saturating_add(1);
            if self.reads == 2 {
                return Err(Error::from(ErrorKind::Interrupted));
            }
            if 4 < self.reads {
                if self.fails {
                    return Err(Error::from_raw_os_error(5));
                }
                return Ok(0);
            }
            for x in buf.iter_mut() {
                *x = self.reads;
            }
            Ok(buf.len().min(3))
        }
    }

    #[test]
    fn reads_to_the_end(rt: HostRuntime) {
        let mut from = Pieces {
            reads: 0,
            fails: false,
        };
        let mut buf = [0u8; 12];
        let n = read_all(&mut from, &mut buf).unwrap_or(0);
        assert_eq!(rt; n, 9);
        assert!(rt; buf[..9] == [1, 1, 1, 3, 3, 3, 4, 4, 4]);
    }

    #[test]
    fn a_failed_read_is_no_end(rt: HostRuntime) {
        let mut from = Pieces {
            reads: 0,
            fails: true,
        };
        let mut buf = [0u8; 12];
        let read = read_all(&mut from, &mut buf);
        assert!(rt; read.is_err());
        let mut full = [0u8; 8];
        from.reads = 0;
        let n = read_all(&mut from, &mut full).unwrap_or(0);
        assert_eq!(rt; n, 8);
    }
}
