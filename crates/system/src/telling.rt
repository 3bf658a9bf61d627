// How the programs say a fault or a wrong call, and write what a command says.
ghost use Rattle.std.specs.Prelude.{ℕ, ◌≡◌, ◌≤◌, length, take, OnErr, OnOk};
ghost use Rattle.std.specs.Io.KnownBytes.{Appends};

use std::io;
use std::io::{Error, ErrorKind, Write};

// Nothing can be said any more, and the program stops.
#[derive(Clone, Copy)]
pub struct Stopped;

impl From<Error> for Stopped {
    fn from(_why: Error) -> Stopped {
        Stopped
    }
}

// What cannot be written is let go.
pub fn say(rt: &impl Print, words: &[u8]) {
    let _ = rt.write_all(words);
}

// What cannot be written to standard error is let go.
fn tell(rt: &HostRuntime, words: &[u8]) {
    let _ = crate::write_whole(&mut rt.stderr(), words);
}

// A line on standard error: what a fault of the system, or a wrong call, is said with begins with `teyk: `.
pub fn wrong(rt: &HostRuntime, what: &[u8], why: &[u8]) {
    tell(rt, b"teyk: ");
    tell(rt, what);
    tell(rt, why);
}

pub fn fault(rt: &HostRuntime, what: &[u8], why: Error) {
    tell(rt, b"teyk: ");
    crate::fail(&rt.stderr(), what, why);
}

// Standard output takes no more.
fn unwritten(rt: &HostRuntime, why: Error) -> Stopped {
    if why.kind() == ErrorKind::BrokenPipe {
        wrong(rt, b"standard output", b": nobody reads it any more\n");
    } else {
        fault(rt, b"standard output", why);
    }
    Stopped
}

// Writes the bytes that were put; what had no room cannot be written.
pub fn write_came<W: Write>(to: &mut W, bytes: &[u8], came: Option<usize>) -> io::Result<()>
    ensures ok { OnOk result ((n : ℕ) × (came ≡ Some n) × (n ≤ length bytes.now) × Appends (W.contents to.old) (W.contents to.new) (take n bytes.now)) }
    ensures err { OnErr result ((n : ℕ) × (n ≤ length bytes.now) × Appends (W.contents to.old) (W.contents to.new) (take n bytes.now)) }
{
    match came {
        Some(n) if n <= bytes.len() => crate::write_whole(to, &bytes[..n]),
        _ => Err(Error::from(ErrorKind::WriteZero)),
    }
}

// Writes to standard output, or says why it takes no more.
pub fn write_out(rt: &HostRuntime, bytes: &[u8], came: Option<usize>) -> Result<(), Stopped> {
    write_came(&mut rt.stdout(), bytes, came).map_err(|why| unwritten(rt, why))
}

// Writes to standard error, where nothing can say why it takes no more.
pub fn write_err(rt: &HostRuntime, bytes: &[u8], came: Option<usize>) -> Result<(), Stopped> {
    write_came(&mut rt.stderr(), bytes, came)?;
    Ok(())
}

// Whether an argument begins with `-` and is more than that: no command knows such a word.
fn is_option(name: &[u8]) -> bool {
    matches!(name, [b'-', _, ..])
}

fn has_option(rt: &HostRuntime, i: usize) -> bool {
    let mut name = crate::name_room();
    let n = crate::argument(rt, i, &mut name).unwrap_or(0);
    let found = is_option(&name[..n]);
    if found {
        wrong(rt, &name[..n], b": no command knows this word\n");
    }
    found
}

// Whether there is an option among the arguments from the first on, where files are to stand; the first such is said.
pub fn has_options(rt: &HostRuntime, first: usize, count: usize) -> bool {
    (first..count).any(|i| has_option(rt, i))
}
