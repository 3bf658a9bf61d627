// Which characters are white space, start a word, and go on in one. Each function answers for every u32.
#![tactic(auto)]

mod tables;

ghost use Rattle.std.specs.Prelude.{◌≡◌, true};
ghost use Rattle.unicode_xid.specs.Whitespace.{is_whitespace};
ghost use Rattle.unicode_xid.specs.Ranges.{in_ranges, ordered};
ghost use Rattle.unicode_xid.specs.Identifier.{is_identifier_start, is_identifier_continue, ascii_start, ascii_continue};

use tables::{CONTINUE, START};

// Unicode's White_Space.
pub fn is_whitespace(c: u32) -> bool
    ensures { result ≡ is_whitespace c }
{
    ((0x0009 <= c) & (c <= 0x000D))
        | (c == 0x0020)
        | (c == 0x0085)
        | (c == 0x00A0)
        | (c == 0x1680)
        | ((0x2000 <= c) & (c <= 0x200A))
        | (c == 0x2028)
        | (c == 0x2029)
        | (c == 0x202F)
        | (c == 0x205F)
        | (c == 0x3000)
}

// XID_Start, with `_`.
pub fn is_identifier_start(c: u32) -> bool
    ensures { result ≡ is_identifier_start c }
{
    if c < 128 {
        return ascii_start(c);
    }
    if is_common(c) {
        return true;
    }
    lookup(&START, c)
}

// XID_Continue, with `_`.
pub fn is_identifier_continue(c: u32) -> bool
    ensures { result ≡ is_identifier_continue c }
{
    if c < 128 {
        return ascii_continue(c);
    }
    if is_common(c) {
        return true;
    }
    lookup(&CONTINUE, c)
}

fn ascii_start(c: u32) -> bool
    ensures { result ≡ ascii_start c }
{
    ((97 <= c) & (c <= 122)) | ((65 <= c) & (c <= 90)) | (c == 95)
}

fn ascii_continue(c: u32) -> bool
    ensures { result ≡ ascii_continue c }
{
    ((97 <= c) & (c <= 122)) | ((65 <= c) & (c <= 90)) | (c == 95) | ((48 <= c) & (c <= 57))
}

// Letters that most words beyond ASCII are made of: for speed alone, since a lookup costs several times as much. Branches, not one
// expression: the compiler makes slow vectors of that.
fn is_latin(c: u32) -> bool
    ensures { result ≡ true → is_identifier_start c ≡ true }
{
    if 0x00F8 <= c {
        return c <= 0x02C1;
    }
    if 0x00D8 <= c {
        return c <= 0x00F6;
    }
    (0x00C0 <= c) & (c <= 0x00D6)
}

// Greek and Cyrillic.
fn is_greek_or_cyrillic(c: u32) -> bool
    ensures { result ≡ true → is_identifier_start c ≡ true }
{
    if 0x03F7 <= c {
        return c <= 0x0481;
    }
    if 0x03A3 <= c {
        return c <= 0x03F5;
    }
    (0x038E <= c) & (c <= 0x03A1)
}

// Hangul, Han and kana.
fn is_eastern(c: u32) -> bool
    ensures { result ≡ true → is_identifier_start c ≡ true }
{
    if 0xAC00 <= c {
        return c <= 0xD7A3;
    }
    if 0x4E00 <= c {
        return c <= 0xA48C;
    }
    if 0x30FC <= c {
        return c <= 0x30FF;
    }
    if 0x30A1 <= c {
        return c <= 0x30FA;
    }
    (0x3041 <= c) & (c <= 0x3096)
}

fn is_common(c: u32) -> bool
    ensures { result ≡ true → is_identifier_start c ≡ true }
{
    if c < 0x0370 {
        return is_latin(c);
    }
    if c < 0x3041 {
        return is_greek_or_cyrillic(c);
    }
    is_eastern(c)
}

// Whether some range of a table holds c: if any, the last one that starts at or below it.
fn lookup(table: &[(u32, u32)], c: u32) -> bool
    requires { ordered 0 table.now ≡ true }
    ensures { result ≡ in_ranges table.now c }
{
    let after = table.partition_point(|range| range.0 <= c);
    (0 < after) && (c <= table[after - 1].1)
}
