// UTF-8 (RFC 3629): what character stands at a place of a byte slice, and whether the whole slice is well formed.
#![tactic(auto)]

pub mod signs;

ghost use Rattle.std.specs.Prelude.{◌≡◌, true, ◌≤◌, ◌<◌, length, get_or, IfSome};
ghost use Rattle.utf8.specs.Widths.{Passes};
ghost use Rattle.utf8.specs.Utf8.{low, high, lead, sight_at, verdict, boundary};

// The byte at a place, and 0 past the end.
fn byte(s: &[u8], i: usize) -> u32
    ensures { result ≡ get_or s.now i 0 }
{
    s.get(i).map_or(0, |b| u32::from(*b))
}

// The least and the greatest second byte after the first byte a.
fn low_of(a: u32) -> u32
    ensures { (result ≡ low a) × (128 ≤ result) }
{
    if a == 224 {
        return 160;
    }
    if a == 240 {
        return 144;
    }
    128
}

fn high_of(a: u32) -> u32
    ensures { (result ≡ high a) × (result ≤ 191) }
{
    if a == 237 {
        return 159;
    }
    if a == 244 {
        return 143;
    }
    191
}

// The character that four bytes start with, whose second byte is from l to h.
fn decode(l: u32, h: u32, a: u32, b: u32, c: u32, d: u32) -> Option<(u32, usize)>
    requires { (128 ≤ l) × (h ≤ 191) }
    ensures { result ≡ lead l h a b c d }
{
    if a < 128 {
        return Some((a, 1));
    }
    if a < 194 {
        return None;
    }
    if b < l {
        return None;
    }
    if h < b {
        return None;
    }
    if a < 224 {
        return Some(((a - 192) * 64 + (b - 128), 2));
    }
    if c < 128 {
        return None;
    }
    if 191 < c {
        return None;
    }
    if a < 240 {
        return Some(((a - 224) * 4096 + (b - 128) * 64 + (c - 128), 3));
    }
    if d < 128 {
        return None;
    }
    if 191 < d {
        return None;
    }
    if a < 245 {
        return Some((
            (a - 240) * 262144 + (b - 128) * 4096 + (c - 128) * 64 + (d - 128),
            4,
        ));
    }
    None
}

// What is seen at a place: a character, with its width in bytes, or that no well-formed one starts there.
pub fn char_at(s: &[u8], at: usize) -> Option<(u32, usize)>
    ensures { result ≡ sight_at s.now at }
{
    if s.len() <= at {
        return None;
    }
    let a = byte(s, at);
    if a < 128 {
        return Some((a, 1));
    }
    let b = byte(s, at + 1);
    let c = byte(s, at + 2);
    let d = byte(s, at + 3);
    decode(low_of(a), high_of(a), a, b, c, d)
}

// Whether every byte is below 128: then s is well formed. One pass with no way out, which the compiler does 16 bytes at a time.
fn ascii(s: &[u8]) -> bool
    ensures { result ≡ true → verdict s.now ≡ (Ok tt) }
{
    let mut m = true;
    for b in s {
        m &= *b < 128;
    }
    m
}

// The width of the character at a place, where it has one of the commonest forms: one byte, two, or three that need no closer look.
fn width_at(s: &[u8], at: usize) -> Option<usize>
    ensures { IfSome result (λ w. (0 < w) × Passes s.now at w) }
{
    if s.len() <= at {
        return None;
    }
    let a = s[at];
    if a < 128 {
        return Some(1);
    }
    if s.len() - at < 3 {
        return None;
    }
    let b = s[at + 1];
    if b < 128 {
        return None;
    }
    if 191 < b {
        return None;
    }
    if a <= 193 {
        return None;
    }
    if a < 224 {
        return Some(2);
    }
    let c = s[at + 2];
    if c < 128 {
        return None;
    }
    if 191 < c {
        return None;
    }
    if a < 225 {
        return None;
    }
    if a < 237 {
        return Some(3);
    }
    None
}

// Whether a text is well formed; if not, where its first ill-formed sequence starts.
pub fn check(s: &[u8]) -> Result<(), usize>
    ensures { result ≡ verdict s.now }
{
    if ascii(s) {
        return Ok(());
    }
    let mut at = 0;
    // a loop: the step is as wide as the character, which no iterator of the bytes gives
    loop {
        if let Some(w) = width_at(s, at) {
            at += w;
            continue;
        }
        match char_at(s, at) {
            Some((_, width)) => {
                at += width;
            }
            None => {
                if at == s.len() {
                    return Ok(());
                }
                return Err(at);
            }
        }
    }
}

// Whether a place is a boundary: the end, or a byte that is not 128 to 191.
pub fn is_boundary(s: &[u8], at: usize) -> bool
    ensures { result ≡ boundary s.now at }
{
    if at == s.len() {
        return true;
    }
    if s.len() < at {
        return false;
    }
    (s[at] < 128) | (191 < s[at])
}
