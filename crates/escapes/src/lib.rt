// String expansion: what the escapes of a string literal stand for, written into a lent buffer.
#![tactic(auto)]

ghost use Rattle.std.specs.Prelude.{◌≡◌, true, ◌<◌, ◌+◌, length, drop, get_or, ltb};
ghost use Rattle.utf8.specs.Utf8.{chars};
ghost use Rattle.escapes.specs.Escapes.{digit, ascii_escape, escape, stands, expand, has_byte};
ghost use Rattle.escapes.specs.Passes.{Readable, measured, fits, over};
ghost use Rattle.escapes.specs.Answers.{expanded, applied, inside, cut, range_check, part_of, part_check};
ghost use Rattle.utf8.specs.Chars.{'backslash};

use record::{Code, Refusal};
use utf8::signs::{BACKSLASH, DOUBLE_QUOTE, LOWER_R};

const LOWER_N: u32 = b'n' as u32;

const LOWER_T: u32 = b't' as u32;

const LOWER_X: u32 = b'x' as u32;

const ZERO: u32 = b'0' as u32;

const NINE: u32 = b'9' as u32;

const UPPER_A: u32 = b'A' as u32;

const UPPER_F: u32 = b'F' as u32;

const LOWER_A: u32 = b'a' as u32;

const LOWER_F: u32 = b'f' as u32;

// What stands at a place of the text: a byte of the expansion, and how many bytes of the text make it; or a refusal.
type Read = Result<(u8, usize), Refusal>;

// Which of the two slices holds an expansion.
#[derive(Clone, Copy)]
pub enum Held {
    Text,
    Buffer,
}

// A range of the text or of the buffer.
#[derive(Clone, Copy)]
pub struct Part {
    pub held: Held,
    pub start: usize,
    pub end: usize,
}

// The value of a hexadecimal digit; 16 for any other character, as the definition `digit` says.
#[tactic(auto, unfolding(crate::specs::Escapes::digit))]
fn digit(c: u32) -> u32
    ensures { result ≡ digit c }
{
    match c {
        ZERO..=NINE => c - ZERO,
        LOWER_A..=LOWER_F => c - LOWER_A + 10,
        UPPER_A..=UPPER_F => c - UPPER_A + 10,
        _ => 16,
    }
}

// What the characters after `\x` make of it, its x at a place.
fn apply_ascii_char_escape(s: &[u8], x: usize, idx0: u64) -> Read
    requires { (x < length s.now) × (Readable s.now idx0) }
    ensures { result ≡ ascii_escape (chars (drop (x + 1) s.now)) (idx0 + x) }
{
    let place = idx0 + (x as u64);
    let Some((octal, width)) = utf8::char_at(s, x + 1) else {
        return Err(Refusal {
            code: Code::UnterminatedAsciiEscape,
            place,
        });
    };
    let Some((hex, _)) = utf8::char_at(s, x + 1 + width) else {
        return Err(Refusal {
            code: Code::UnterminatedAsciiEscape,
            place: place + 1,
        });
    };
    let high = digit(octal);
    let low = digit(hex);
    if (high < 8) & (low < 16) {
        return Ok(((16 * high + low) as u8, 4));
    }
    Err(Refusal {
        code: Code::UnrecognizedEscape,
        place,
    })
}

// What the characters after a backslash make of it, the backslash at a place.
fn escape_at(s: &[u8], i: usize, idx0: u64) -> Read
    requires { (i < length s.now) × (Readable s.now idx0) }
    ensures { result ≡ escape (chars (drop (i + 1) s.now)) (idx0 + i) }
{
    let place = idx0 + (i as u64);
    let Some((c, _)) = utf8::char_at(s, i + 1) else {
        return Err(Refusal {
            code: Code::TrailingBackslash,
            place,
        });
    };
    match c {
        BACKSLASH => Ok((b'\\', 2)),
        DOUBLE_QUOTE => Ok((b'"', 2)),
        LOWER_N => Ok((b'\n', 2)),
        LOWER_R => Ok((b'\r', 2)),
        LOWER_T => Ok((b'\t', 2)),
        ZERO => Ok((b'\0', 2)),
        LOWER_X => apply_ascii_char_escape(s, i + 1, idx0),
        _ => Err(Refusal {
            code: Code::UnrecognizedEscape,
            place: place + 1,
        }),
    }
}

// What stands at a place of the text.
fn read_at(s: &[u8], i: usize, idx0: u64) -> Read
    requires { (i < length s.now) × (Readable s.now idx0) }
    ensures { result ≡ stands (get_or s.now i 0) (drop (i + 1) s.now) (idx0 + i) }
{
    let byte = s[i];
    if byte == b'\\' {
        return escape_at(s, i, idx0);
    }
    Ok((byte, 1))
}

// One pass with no way out, which the compiler does many bytes at a time.
fn has_backslash(s: &[u8]) -> bool
    ensures { result ≡ has_byte 'backslash s.now }
{
    let mut found = false;
    for b in s {
        found |= *b == b'\\';
    }
    found
}

// How many bytes the expansion has, or the refusal. The step is as wide as what is read, which no iterator of the slice gives; in `write` too.
fn measure(s: &[u8], idx0: u64) -> Result<usize, Refusal>
    requires { Readable s.now idx0 }
    ensures { result ≡ measured (expand s.now idx0) }
{
    let mut i: usize = 0;
    let mut n: usize = 0;
    while i < s.len() {
        let (_, width) = read_at(s, i, idx0)?;
        i += width;
        n += 1;
    }
    Ok(n)
}

// Writes the expansion from the start of out on.
fn write(s: &[u8], idx0: u64, out: &mut [u8])
    requires { (Readable s.now idx0) × (fits (expand s.now idx0) (length out.old) ≡ true) }
    ensures { out.new ≡ over (expand s.now idx0) out.old }
{
    let mut i: usize = 0;
    let mut n: usize = 0;
    while i < s.len() {
        let Ok((byte, width)) = read_at(s, i, idx0) else {
            return;
        };
        out[n] = byte;
        i += width;
        n += 1;
    }
}

// Whether n bytes from a place on go beyond the room. The sum of place and n may be too large for a number.
fn beyond(room: usize, place: usize, n: usize) -> bool
    ensures { result ≡ ltb room (place + n) }
{
    if room < place {
        return true;
    }
    if room - place < n {
        return true;
    }
    false
}

// The answer for a text that passed the checks.
fn expand_into(text: &[u8], idx0: u64, buf: &mut [u8], place: usize) -> Result<Part, Refusal>
    requires { Readable text.now idx0 }
    ensures { (result ≡ (expanded text.now idx0 buf.old place).answer)
        × (buf.new ≡ (expanded text.now idx0 buf.old place).buffer) }
{
    if !has_backslash(text) {
        return Ok(Part {
            held: Held::Text,
            start: 0,
            end: text.len(),
        });
    }
    let n = measure(text, idx0)?;
    if beyond(buf.len(), place, n) {
        return Err(Refusal {
            code: Code::NoRoom,
            place: idx0,
        });
    }
    write(text, idx0, &mut buf[place..]);
    Ok(Part {
        held: Held::Buffer,
        start: place,
        end: place + n,
    })
}

// Expands the escapes of a text whose first byte has the place idx0, into the buffer from a place on; without a backslash
// the answer is the text itself. What is refused writes nothing.
pub fn apply_string_escapes(
    text: &[u8],
    idx0: u64,
    buf: &mut [u8],
    place: usize,
) -> Result<Part, Refusal>
    ensures { (result ≡ (applied text.now idx0 buf.old place).answer)
        × (buf.new ≡ (applied text.now idx0 buf.old place).buffer) }
{
    record::checks(text, idx0)?;
    expand_into(text, idx0, buf, place)
}

// Whether a range lies in n bytes.
fn inside(n: usize, start: usize, end: usize) -> bool
    ensures { result ≡ inside n start end }
{
    (start <= end) & (end <= n)
}

fn cut(s: &[u8], start: usize, end: usize) -> &[u8]
    ensures { result.now ≡ cut s.now start end }
{
    s.get(start..end).unwrap_or(&[])
}

// The bytes of an expansion: a part of the text or a part of the buffer; empty for a range outside.
pub fn expansion<'a>(text: &'a [u8], buf: &'a [u8], part: Part) -> &'a [u8]
    ensures { result.now ≡ part_of text.now buf.now part }
{
    let held = part.held;
    let start = part.start;
    let end = part.end;
    match held {
        Held::Text => cut(text, start, end),
        Held::Buffer => cut(buf, start, end),
    }
}

fn range_check(n: usize, start: usize, end: usize) -> Result<(), Refusal>
    ensures { result ≡ range_check n start end }
{
    if inside(n, start, end) {
        return Ok(());
    }
    Err(Refusal {
        code: Code::BadRecord,
        place: 0,
    })
}

// Whether the range of an expansion lies in its slice.
pub fn expansion_check(text: &[u8], buf: &[u8], part: Part) -> Result<(), Refusal>
    ensures { result ≡ part_check text.now buf.now part }
{
    let held = part.held;
    let start = part.start;
    let end = part.end;
    match held {
        Held::Text => range_check(text.len(), start, end),
        Held::Buffer => range_check(buf.len(), start, end),
    }
}
