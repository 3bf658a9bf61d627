// What the lines of a file say of a property, held against the function's answers, code point by code point.
ghost use Rattle.std.specs.Prelude.{◌≡◌, ◌≤◌, ◌<◌};
ghost use Rattle.tally.specs.Answers.{asked, besides};
ghost use Rattle.tally.specs.Tallies.{agrees_of, end, fresh_tally, noted, spoilt_of, step_of, tally_of, up_to, with_line, with_range};
ghost use Rattle.tally.specs.Laws.{Sane};

use property::line::{Line, Property, line_at};
use utf8::signs::UNDERSCORE;

// One more than the greatest code point.
pub const END: u32 = 0x110000;

// What is known of a property below the code point `next`: how many the file names, how many the function does, the first difference (or END),
// and the first line that cannot be read (or 0). No options: `agrees_of`, `no_difference` and the theorems of specs/Examples read these numbers.
#[derive(Clone, Copy)]
pub struct Tally {
    pub next: u32,
    pub told: u32,
    pub yes: u32,
    pub first: u32,
    pub damaged: usize,
}

// The function's answer.
pub fn asks(p: Property, c: u32) -> bool
    ensures { result ≡ asked p c }
{
    match p {
        Property::Start => unicode_xid::is_identifier_start(c),
        Property::Continue => unicode_xid::is_identifier_continue(c),
        Property::White => unicode_xid::is_whitespace(c),
    }
}

// Whether the function names a code point that the property does not: `_`.
fn is_besides(p: Property, c: u32) -> bool
    ensures { result ≡ besides p c }
{
    match p {
        Property::Start | Property::Continue => c == UNDERSCORE,
        Property::White => false,
    }
}

// The first difference, if c differs or not.
fn note(first: u32, c: u32, differs: bool) -> u32
    ensures { result ≡ noted first c differs }
{
    if differs & (first == END) {
        return c;
    }
    first
}

// The tally with its next code point, of which the file says `told`.
fn step(t: Tally, p: Property, told: bool) -> Tally
    requires { (Sane t) × (t.next < end) }
    ensures { result ≡ step_of p told t }
{
    let c = t.next;
    let answer = asks(p, c);
    let want = told | is_besides(p, c);
    let first = note(t.first, c, answer != want);
    Tally {
        next: c + 1,
        told: t.told + u32::from(told),
        yes: t.yes + u32::from(answer),
        first,
        ..t
    }
}

// The tally with the code points up to `to`, of which the file says `told`.
fn further(t: Tally, p: Property, to: u32, told: bool) -> Tally
    requires { (Sane t) × (to ≤ end) }
    ensures { result ≡ up_to p told to t }
{
    let mut u = t;
    for _ in t.next..to {
        u = step(u, p, told);
    }
    u
}

// The tally with a line that cannot be read.
fn spoilt(t: Tally, n: usize) -> Tally
    ensures { result ≡ spoilt_of n t }
{
    if t.damaged != 0 {
        return t;
    }
    Tally { damaged: n, ..t }
}

// The tally with line n, which names the code points from `first` to `last`. A property's lines ascend.
fn with_range(t: Tally, p: Property, first: u32, last: u32, n: usize) -> Tally
    requires { Sane t }
    ensures { result ≡ with_range p n first last t }
{
    if first < t.next || last < first || END <= last {
        return spoilt(t, n);
    }
    further(further(t, p, first, false), p, last + 1, true)
}

// The tally with line n. Another property's line says nothing.
fn with_line(t: Tally, p: Property, l: Line, n: usize) -> Tally
    requires { Sane t }
    ensures { result ≡ with_line p n l t }
{
    match l {
        Line::Nothing => t,
        Line::Damaged => spoilt(t, n),
        Line::Range {
            first,
            last,
            property,
        } => {
            if property == p {
                with_range(t, p, first, last, n)
            } else {
                t
            }
        }
    }
}

// The tally of nothing yet.
fn fresh() -> Tally
    ensures { result ≡ fresh_tally }
{
    Tally {
        next: 0,
        told: 0,
        yes: 0,
        first: END,
        damaged: 0,
    }
}

// The tally of a file's lines; after the last no code point is named.
pub fn tally_of(s: &[u8], p: Property) -> Tally
    ensures { result ≡ tally_of s.now p }
{
    let mut t = fresh();
    let mut at = 0;
    let mut n: usize = 0;
    // no `for`: where the next line starts the reader tells
    while at < s.len() {
        n += 1;
        let read = line_at(s, at);
        t = with_line(t, p, read.line, n);
        at = read.next;
    }
    further(t, p, END, false)
}

// The verdict: every line could be read, and no answer differs.
pub fn agrees(t: Tally) -> bool
    ensures { result ≡ agrees_of t }
{
    (t.damaged == 0) & (t.first == END)
}
