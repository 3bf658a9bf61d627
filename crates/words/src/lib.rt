// The tokens that a word or a quote makes. Words: `_`, `use`, the thirteen keywords, else `MacroId` if `<` follows at once, else `Id`.
#![tactic(auto)]

pub mod quotes;

ghost use Rattle.std.specs.Prelude.{◌+◌, ◌≤◌, ◌≡◌, true, length};
ghost use Rattle.words.specs.Letters.{letters};
ghost use Rattle.record.specs.declared.Reading.{Reading};
ghost use Rattle.scan.specs.Until.{left};
ghost use Rattle.reading.specs.Words.{spells, id_token, code_token, use_token, word_token};

use reading::Call;
use record::{Kind, Reading};
use scan::{Deep, Skip};
use utf8::signs;

// Whether the characters from a place up to the place p are those of a word of letters below 128: its bytes, of which there are as many.
fn spelled<'a>(s: &'a [u8], at: usize, p: usize, word: &'a [u8]) -> bool
    requires { (at ≤ p) × (p ≤ length s.now) × (letters word.now ≡ true) }
    ensures { result ≡ spells word.now (left s.now at) at p }
{
    &s[at..p] == word
}

// No keyword: a macro's name if `<` follows at once.
fn id_token(s: &[u8], o: usize, p: usize) -> Call
    ensures { result ≡ id_token o (left s.now p) p }
{
    if scan::is_next(s, p, signs::LESS_THAN) {
        return reading::deliver(Kind::MacroId, o, o, p, p, 0);
    }
    reading::deliver(Kind::Id, o, o, p, p, 0)
}

// A token that takes code from a place on: up to where the code ends.
pub fn code_token(kind: Kind, o: usize, from: usize, x: Deep<Skip>) -> Call
    ensures { result ≡ code_token kind o from x.what x.depth }
{
    let d = x.depth;
    let skip = x.what;
    match skip {
        Ok((p, m)) => {
            let y = reading::deliver(kind, o, from, p, p, m);
            Call {
                code_depth: d as u64,
                ..y
            }
        }
        Err((r, p, m)) => reading::fail(r, p, m),
    }
}

fn use_token(s: &[u8], rd: Reading, o: usize, p: usize) -> Call
    ensures { result ≡ use_token rd o (left s.now p) p }
{
    code_token(Kind::Use, o, p, code::code(s, rd, p, o))
}

// The words that are looked for, by their length.
fn word_1(s: &[u8], o: usize, p: usize) -> Call
    requires { (p ≡ o + 1) × (p ≤ length s.now) }
    ensures { (rd : Reading) → result ≡ word_token rd (left s.now o) o (left s.now p) p }
{
    if spelled(s, o, p, b"_") {
        return reading::plain(Kind::Underscore, o, p, 0);
    }
    id_token(s, o, p)
}

fn word_2(s: &[u8], o: usize, p: usize) -> Call
    requires { (p ≡ o + 2) × (p ≤ length s.now) }
    ensures { (rd : Reading) → result ≡ word_token rd (left s.now o) o (left s.now p) p }
{
    if spelled(s, o, p, b"if") {
        return reading::plain(Kind::If, o, p, 0);
    }
    if spelled(s, o, p, b"in") {
        return reading::plain(Kind::In, o, p, 0);
    }
    id_token(s, o, p)
}

fn word_3(s: &[u8], rd: Reading, o: usize, p: usize) -> Call
    requires { (p ≡ o + 3) × (p ≤ length s.now) }
    ensures { result ≡ word_token rd (left s.now o) o (left s.now p) p }
{
    if spelled(s, o, p, b"r#_") {
        return reading::plain(Kind::Underscore, o, p, 0);
    }
    if spelled(s, o, p, b"use") {
        return use_token(s, rd, o, p);
    }
    if spelled(s, o, p, b"mut") {
        return reading::plain(Kind::Mut, o, p, 0);
    }
    if spelled(s, o, p, b"pub") {
        return reading::plain(Kind::Pub, o, p, 0);
    }
    if spelled(s, o, p, b"for") {
        return reading::plain(Kind::For, o, p, 0);
    }
    if spelled(s, o, p, b"dyn") {
        return reading::plain(Kind::Dyn, o, p, 0);
    }
    id_token(s, o, p)
}

fn word_4(s: &[u8], o: usize, p: usize) -> Call
    requires { (p ≡ o + 4) × (p ≤ length s.now) }
    ensures { (rd : Reading) → result ≡ word_token rd (left s.now o) o (left s.now p) p }
{
    if spelled(s, o, p, b"enum") {
        return reading::plain(Kind::Enum, o, p, 0);
    }
    if spelled(s, o, p, b"else") {
        return reading::plain(Kind::Else, o, p, 0);
    }
    if spelled(s, o, p, b"type") {
        return reading::plain(Kind::Type, o, p, 0);
    }
    id_token(s, o, p)
}

fn word_5(s: &[u8], o: usize, p: usize) -> Call
    requires { (p ≡ o + 5) × (p ≤ length s.now) }
    ensures { (rd : Reading) → result ≡ word_token rd (left s.now o) o (left s.now p) p }
{
    if spelled(s, o, p, b"match") {
        return reading::plain(Kind::Match, o, p, 0);
    }
    if spelled(s, o, p, b"where") {
        return reading::plain(Kind::Where, o, p, 0);
    }
    id_token(s, o, p)
}

fn word_6(s: &[u8], o: usize, p: usize) -> Call
    requires { (p ≡ o + 6) × (p ≤ length s.now) }
    ensures { (rd : Reading) → result ≡ word_token rd (left s.now o) o (left s.now p) p }
{
    if spelled(s, o, p, b"extern") {
        return reading::plain(Kind::Extern, o, p, 0);
    }
    id_token(s, o, p)
}

fn word_7(s: &[u8], o: usize, p: usize) -> Call
    requires { (p ≡ o + 7) × (p ≤ length s.now) }
    ensures { (rd : Reading) → result ≡ word_token rd (left s.now o) o (left s.now p) p }
{
    if spelled(s, o, p, b"grammar") {
        return reading::plain(Kind::Grammar, o, p, 0);
    }
    id_token(s, o, p)
}

// The word from o to p. One that ends before it starts, or beyond the text, is none of the words that are looked for: the tests by
// bytes rest on it.
pub fn word_token(s: &[u8], rd: Reading, o: usize, p: usize) -> Call
    ensures { result ≡ word_token rd (left s.now o) o (left s.now p) p }
{
    if p < o {
        return id_token(s, o, p);
    }
    if s.len() < p {
        return id_token(s, o, p);
    }
    let n = p - o;
    match n {
        1 => word_1(s, o, p),
        2 => word_2(s, o, p),
        3 => word_3(s, rd, o, p),
        4 => word_4(s, o, p),
        5 => word_5(s, o, p),
        6 => word_6(s, o, p),
        7 => word_7(s, o, p),
        _ => id_token(s, o, p),
    }
}
