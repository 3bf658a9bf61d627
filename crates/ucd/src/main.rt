// Unicode's own files over every code point: what the lines in data/ say, and what the three functions of `unicode_xid` answer. Then the same over a
// file of ours in which differences are planted, so that the run shows that it sees them.
#![tactic(auto)]

ghost use Rattle.std.specs.Prelude.{◌≡◌, length};

use property::line::Property;
use std::fs::File;
use std::io;
use tally::tally::{END, Tally};

// What cannot be written is let go.
fn text(rt: &impl Print, words: &[u8]) {
    let _ = rt.write_all(words);
}

fn decimal(rt: &impl Print, n: u64) {
    let _ = print!(rt; "{n}");
}

// Room for the longest of the files.
fn room() -> [u8; 262144]
    ensures { 262144 ≡ length result }
{
    [0; 262144]
}

// The words of a property's line: before the file's count, before the function's, and after it.
fn before(rt: &impl Print, p: Property) {
    match p {
        Property::Start => text(rt, b"XID_Start "),
        Property::Continue => text(rt, b"XID_Continue "),
        Property::White => text(rt, b"White_Space "),
    }
}

fn function(rt: &impl Print, p: Property) {
    match p {
        Property::Start => text(rt, b"; is_identifier_start "),
        Property::Continue => text(rt, b"; is_identifier_continue "),
        Property::White => text(rt, b"; is_whitespace "),
    }
}

fn tail(rt: &impl Print, p: Property) {
    match p {
        Property::Start | Property::Continue => text(rt, b", with _\n"),
        Property::White => text(rt, b"\n"),
    }
}

fn says(rt: &impl Print, yes: bool) {
    if yes {
        text(rt, b", which the function names and the file does not\n");
        return;
    }
    text(rt, b", which the file names and the function does not\n");
}

fn damage(rt: &impl Print, line: usize) {
    if line != 0 {
        text(rt, b"first damaged line: ");
        decimal(rt, line as u64);
        text(rt, b"\n");
    }
}

// A code point as Unicode writes it: four digits, or as many as it takes.
fn code_point(rt: &impl Print, c: u32) {
    let _ = print!(rt; "U+{c:04X}");
}

fn difference(rt: &impl Print, p: Property, c: u32) {
    if c != END {
        text(rt, b"first difference: ");
        code_point(rt, c);
        says(rt, tally::tally::asks(p, c));
    }
}

// Prints a tally, and answers whether nothing is wrong.
fn report(rt: &impl Print, t: Tally, p: Property) -> bool {
    before(rt, p);
    decimal(rt, t.told as u64);
    function(rt, p);
    decimal(rt, t.yes as u64);
    tail(rt, p);
    damage(rt, t.damaged);
    difference(rt, p, t.first);
    tally::tally::agrees(t)
}

// A fault of the system, on standard error.
fn fail(rt: &HostRuntime, path: &str, fault: io::Error) {
    system::fail(&rt.stderr(), path.as_bytes(), fault);
}

// Whether a file is read to its end: one read more answers 0 at the end alone.
fn is_whole(rt: &HostRuntime, path: &str, file: &mut File) -> bool {
    let mut more = [0u8; 1];
    match system::read_once(file, &mut more) {
        Err(fault) => {
            fail(rt, path, fault);
            false
        }
        Ok(0) => true,
        Ok(_) => {
            text(rt, path.as_bytes());
            text(rt, b" is not read to its end\n");
            false
        }
    }
}

fn compare_open(rt: &HostRuntime, path: &str, file: &mut File, p: Property) -> bool {
    let mut buf = room();
    match system::read_all(file, &mut buf) {
        Err(fault) => {
            fail(rt, path, fault);
            false
        }
        Ok(n) => {
            if !is_whole(rt, path, file) {
                return false;
            }
            report(rt, tally::tally::tally_of(&buf[..n], p), p)
        }
    }
}

fn compare(rt: &HostRuntime, path: &str, p: Property) -> bool {
    match File::open(rt, path) {
        Err(fault) => {
            fail(rt, path, fault);
            false
        }
        Ok(mut file) => compare_open(rt, path, &mut file, p),
    }
}

fn main(rt: HostRuntime) {
    text(&rt, b"code points ");
    decimal(&rt, END as u64);
    text(&rt, b"\n");
    let start = compare(&rt, "DerivedCoreProperties.txt", Property::Start);
    let more = compare(&rt, "DerivedCoreProperties.txt", Property::Continue);
    let white = compare(&rt, "PropList.txt", Property::White);
    if start & more & white {
        text(&rt, b"no difference\n");
    }
    text(&rt, b"planted:\n");
    compare(&rt, "Planted.txt", Property::Start);
    compare(&rt, "Planted.txt", Property::Continue);
    compare(&rt, "Planted.txt", Property::White);
}
