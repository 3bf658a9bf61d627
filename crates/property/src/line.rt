// A line of Unicode's files: `XXXX ; Property # comment`, or `XXXX..YYYY ; Property # comment`.
ghost use Rattle.std.specs.Prelude.{◌≡◌, ◌<◌, ◌≤◌, ℕ, length, MatchOption};
ghost use Rattle.property.specs.Hex.{digit_of, hex_of};
ghost use Rattle.property.specs.Lines.{passes, front, past_spaces, ranged, known_of, named_of, last_of, range_of, first_of, line_of, line_at};

#[derive(Clone, Copy, PartialEq, Eq)]
pub enum Property {
    Start,
    Continue,
    White,
}

#[derive(Clone, Copy)]
pub enum Line {
    // Empty, or a comment.
    Nothing,
    Range {
        first: u32,
        last: u32,
        property: Property,
    },
    Damaged,
}

// The line that starts at a place, and the place of the next.
#[derive(Clone, Copy)]
pub struct Read {
    pub line: Line,
    pub next: usize,
}

// A number, and how many digits it was read from.
#[derive(Clone, Copy)]
struct Hex {
    value: u32,
    digits: usize,
}

// A hexadecimal digit's value as Unicode writes it.
fn digit(b: u8) -> Option<u32>
    ensures { MatchOption result (digit_of b ≡ 16) (λ d. (d ≡ digit_of b) × (d < 16)) }
{
    match b {
        b'0'..=b'9' => Some(u32::from(b - b'0')),
        b'A'..=b'F' => Some(u32::from(b - b'A') + 10),
        _ => None,
    }
}

// The digits at the front of a text. Past 10FFFF none is taken.
fn digits(s: &[u8]) -> Hex
    ensures { result ≡ hex_of s.now }
{
    let mut value: u32 = 0;
    let mut digits: usize = 0;
    for b in s {
        let Some(d) = digit(*b) else {
            break;
        };
        if 0x10FFFF < value {
            break;
        }
        value = value * 16 + d;
        digits += 1;
    }
    Hex { value, digits }
}

// The number at the front of a text, where there is one.
fn number(s: &[u8]) -> Option<Hex>
    ensures { MatchOption result ((hex_of s.now).digits ≡ 0) (λ h. (h ≡ hex_of s.now) × (0 < h.digits) × (h.digits ≤ length s.now)) }
{
    let h = digits(s);
    if h.digits == 0 {
        return None;
    }
    Some(h)
}

// Whether the byte a is b; or, if not `same`, is not: `passes` and `front` of specs/Lines take `same`.
fn is_passed(a: u8, b: u8, same: bool) -> bool
    ensures { result ≡ passes a b same }
{
    (a == b) == same
}

// How many bytes at the front of a text are b; or, if not `same`, are not.
fn front(s: &[u8], b: u8, same: bool) -> usize
    ensures { result ≡ front b same s.now }
{
    for (i, a) in s.iter().enumerate() {
        if !is_passed(*a, b, same) {
            return i;
        }
    }
    s.len()
}

// A text after the spaces at its front.
fn past_spaces(s: &[u8]) -> &[u8]
    ensures { result.now ≡ past_spaces s.now }
{
    &s[front(s, b' ', true)..]
}

// The property whose name stands at the front, with the space that ends it.
fn known(s: &[u8]) -> Option<Property>
    ensures { (first last : ℕ) → ranged first last result ≡ known_of s.now first last }
{
    if s.starts_with(b"XID_Start ") {
        return Some(Property::Start);
    }
    if s.starts_with(b"XID_Continue ") {
        return Some(Property::Continue);
    }
    if s.starts_with(b"White_Space ") {
        return Some(Property::White);
    }
    None
}

// What stands after the code points: spaces, `;`, spaces, and a name.
fn named(s: &[u8]) -> Option<Property>
    ensures { (first last : ℕ) → ranged first last result ≡ named_of s.now first last }
{
    let name = past_spaces(s).strip_prefix(b";")?;
    known(past_spaces(name))
}

// The line of code points, after which s stands.
fn with_name(s: &[u8], first: u32, last: u32) -> Line
    ensures { result ≡ named_of s.now first last }
{
    match named(s) {
        Some(property) => Line::Range {
            first,
            last,
            property,
        },
        None => Line::Damaged,
    }
}

// The last code point, and what stands after it.
fn with_last(s: &[u8], first: u32) -> Line
    ensures { result ≡ last_of first (hex_of s.now) s.now }
{
    match number(s) {
        Some(h) => with_name(&s[h.digits..], first, h.value),
        None => Line::Damaged,
    }
}

// What stands after the first code point.
fn range(s: &[u8], first: u32) -> Line
    ensures { result ≡ range_of first s.now }
{
    match s.strip_prefix(b"..") {
        Some(t) => with_last(t, first),
        None => with_name(s, first, first),
    }
}

// The first code point, and what stands after it.
fn with_first(s: &[u8]) -> Line
    ensures { result ≡ first_of (hex_of s.now) s.now }
{
    match number(s) {
        Some(h) => range(&s[h.digits..], h.value),
        None => Line::Damaged,
    }
}

// What a line says.
fn parse(s: &[u8]) -> Line
    ensures { result ≡ line_of s.now }
{
    match s {
        [] | [b'#', ..] => Line::Nothing,
        _ => with_first(s),
    }
}

// The line that starts at a place. Past the end there is none.
pub fn line_at(s: &[u8], at: usize) -> Read
    ensures { result ≡ line_at s.now at }
{
    if s.len() <= at {
        return Read {
            line: Line::Nothing,
            next: at,
        };
    }
    let end = at + front(&s[at..], b'\n', false);
    Read {
        line: parse(&s[at..end]),
        next: end + 1,
    }
}
