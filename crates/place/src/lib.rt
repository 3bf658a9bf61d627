// Where a place stands in a text, by line and column as editors count them, and back. Lines and columns are known here alone.
#![tactic(auto)]

ghost use Rattle.std.specs.Prelude.{◌≡◌, ◌&&◌, ltb, ℕ, ◌+◌, ◌≤◌, ◌<◌, length, drop};
ghost use Rattle.utf8.specs.Laws.{Whole};
ghost use Rattle.utf8.specs.Utf8.{chars, verdict};
ghost use Rattle.place.specs.Place.{bytes_to, line_column, located, place_at, reported};
ghost use Rattle.place.specs.First.{ends_at, first_units, first_width};

use record::Refusal;

// A line and a column, both counted from 0; the column in UTF-16 units.
#[derive(Clone, Copy)]
pub struct Place {
    pub line: u64,
    pub column: u64,
}

// The bytes of a character, by its first byte.
#[tactic(auto, unfolding(crate::specs::First::first_width))]
fn width(a: u8) -> usize
    ensures { result ≡ first_width a }
{
    match a {
        0..=127 => 1,
        128..=223 => 2,
        224..=239 => 3,
        _ => 4,
    }
}

// Its units, by the same byte.
#[tactic(auto, unfolding(crate::specs::First::first_units))]
fn units(a: u8) -> u64
    ensures { result ≡ first_units a }
{
    if a < 240 { 1 } else { 2 }
}

// Whether a byte is a character of one unit with which no line ends: of most texts most bytes are.
fn is_plain(a: u8) -> bool
    ensures { result ≡ (ltb 13 a && ltb a 128) }
{
    (13 < a) & (a < 128)
}

// Whether a line ends with the character at a place.
#[tactic(auto, unfolding(crate::specs::First::ends_at))]
fn ends(text: &[u8], i: usize) -> bool
    requires { i < length text.now }
    ensures { result ≡ ends_at text.now i }
{
    match text[i] {
        b'\n' => true,
        b'\r' => text.get(i + 1) != Some(&b'\n'),
        _ => false,
    }
}

// How far a walk can go: to the place, or to the text's end.
fn bound(text: &[u8], at: u64) -> usize
    ensures { (result ≤ length text.now) × (result ≤ at) × (result < at → length text.now ≤ result) }
{
    at.min(text.len() as u64) as usize
}

// The line and the column of a place in a well-formed text. The commonest characters come first: one byte, one unit, no line's end; then the others of one
// byte; then those of more, with which no line ends. The step is a character's width, which no iterator over bytes gives; one over a str asks for a check of its own.
fn walk(text: &[u8], at: u64) -> Place
    requires { verdict text.now ≡ Ok tt }
    ensures { result ≡ line_column text.now at }
{
    let end = bound(text, at);
    let mut line: u64 = 0;
    let mut column: u64 = 0;
    let mut i: usize = 0;
    while i < end {
        let a = text[i];
        if is_plain(a) {
            column += 1;
            i += 1;
        } else if a < 128 {
            let ended = ends(text, i);
            i += 1;
            if ended {
                line += 1;
                column = 0;
            } else {
                column += 1;
            }
        } else {
            let bytes = width(a);
            let n = units(a);
            let next = i + bytes;
            if at < next as u64 {
                return Place { line, column };
            }
            column += n;
            i = next;
        }
    }
    Place { line, column }
}

// The reporter: a place inside a character is answered as its first byte, one beyond the text as its end.
pub fn line_column(text: &[u8], at: u64) -> Result<Place, Refusal>
    ensures { result ≡ reported text.now at }
{
    record::checks(text, 0)?;
    Ok(walk(text, at))
}

// The same for any text: where it is ill-formed, its well-formed beginning is asked.
pub fn in_beginning(text: &[u8], at: u64) -> Place
    ensures { result ≡ line_column text.now at }
{
    match utf8::check(text) {
        Ok(()) => walk(text, at),
        Err(end) => walk(&text[..end], at),
    }
}

// Where a line of a well-formed text starts; its end where it has not so many. Stepped as in `walk`.
fn line_start(text: &[u8], line: u64) -> usize
    requires { verdict text.now ≡ Ok tt }
    ensures { (result ≤ length text.now)
        × (Whole text.now result)
        × ((u : ℕ) → place_at text.now line u ≡ result + bytes_to 0 u (chars (drop result text.now))) }
{
    let mut left = line;
    let mut i: usize = 0;
    while i < text.len() {
        if left == 0 {
            return i;
        }
        let a = text[i];
        if is_plain(a) {
            i += 1;
        } else {
            let next = i + width(a);
            if ends(text, i) {
                left -= 1;
            }
            i = next;
        }
    }
    i
}

// The place so many units further on a line; the line's end where it has fewer. Stepped as in `walk`.
fn along(text: &[u8], start: usize, column: u64) -> usize
    requires { (start ≤ length text.now) × (Whole text.now start) }
    ensures { result ≡ start + bytes_to 0 column (chars (drop start text.now)) }
{
    let mut left = column;
    let mut i = start;
    while i < text.len() {
        let a = text[i];
        if a == b'\n' {
            return i;
        }
        if a == b'\r' {
            return i;
        }
        let n = units(a);
        if left < n {
            return i;
        }
        left -= n;
        i += width(a);
    }
    i
}

// The place of a line and a column.
pub fn place_at(text: &[u8], line: u64, column: u64) -> Result<u64, Refusal>
    ensures { result ≡ located text.now line column }
{
    record::checks(text, 0)?;
    Ok(along(text, line_start(text, line), column) as u64)
}
