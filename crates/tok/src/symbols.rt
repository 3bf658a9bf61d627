// Symbols. Each reader of a longer symbol stands after its first character; that one stands at o, what is left at at.
ghost use Rattle.std.specs.Prelude.{◌≡◌, ◌+◌};
ghost use Rattle.scan.specs.Until.{left};
ghost use Rattle.scan.specs.IfNext.{if_next};
ghost use Rattle.reading.specs.Answers.{plain};
ghost use Rattle.reading.specs.Symbols.{half, stray, bang, colon, dot, look, tilde, minus, arrow_look, arrow_code, right_arrow, equals};

use reading::Call;
use record::{Code, Kind, Reading};
use scan::is_next;
use utf8::signs;

// Half a symbol: refused at its first character, which is passed.
pub fn half(o: usize, at: usize) -> Call
    ensures { result ≡ half o at }
{
    reading::refuse(Code::HalfSymbol, o, at, 0)
}

// A character that starts nothing: refused at its place, and not passed.
pub fn stray(o: usize) -> Call
    ensures { result ≡ stray o }
{
    reading::refuse(Code::StrayCharacter, o, o, 0)
}

// A second character k makes the longer symbol; without it the answer is the other one.
fn mark(s: &[u8], o: usize, at: usize, k: u32, kind: Kind, other: Call) -> Call
    ensures { result ≡ if_next k (left s.now at) (plain kind o (at + 1) 1) other }
{
    if is_next(s, at, k) {
        return reading::plain(kind, o, at + 1, 1);
    }
    other
}

pub fn bang(s: &[u8], o: usize, at: usize) -> Call
    ensures { result ≡ bang o (left s.now at) at }
{
    let other = mark(
        s,
        o,
        at,
        signs::TILDE,
        Kind::BangTilde,
        reading::plain(Kind::Bang, o, at, 0),
    );
    mark(s, o, at, signs::EQUALS, Kind::BangEquals, other)
}

pub fn colon(s: &[u8], o: usize, at: usize) -> Call
    ensures { result ≡ colon o (left s.now at) at }
{
    mark(
        s,
        o,
        at,
        signs::COLON,
        Kind::ColonColon,
        reading::plain(Kind::Colon, o, at, 0),
    )
}

pub fn dot(s: &[u8], o: usize, at: usize) -> Call
    ensures { result ≡ dot o (left s.now at) at }
{
    mark(s, o, at, signs::DOT, Kind::DotDot, half(o, at))
}

pub fn look(s: &[u8], o: usize, at: usize) -> Call
    ensures { result ≡ look o (left s.now at) at }
{
    let other = mark(s, o, at, signs::UPPER_R, Kind::Lookbehind, half(o, at));
    mark(s, o, at, signs::UPPER_L, Kind::Lookahead, other)
}

pub fn tilde(s: &[u8], o: usize, at: usize) -> Call
    ensures { result ≡ tilde o (left s.now at) at }
{
    mark(s, o, at, signs::TILDE, Kind::TildeTilde, half(o, at))
}

pub fn minus(s: &[u8], o: usize, at: usize) -> Call
    ensures { result ≡ minus o (left s.now at) at }
{
    mark(
        s,
        o,
        at,
        signs::GREATER_THAN,
        Kind::MinusGreaterThan,
        half(o, at),
    )
}

// After `=>@`.
fn arrow_look(s: &[u8], o: usize, at: usize) -> Call
    ensures { result ≡ arrow_look o (left s.now at) at }
{
    let other = mark(
        s,
        o,
        at,
        signs::UPPER_R,
        Kind::EqualsGreaterThanLookbehind,
        half(o, at),
    );
    mark(
        s,
        o,
        at,
        signs::UPPER_L,
        Kind::EqualsGreaterThanLookahead,
        other,
    )
}

// After `=>` or `=>?`.
fn arrow_code(s: &[u8], rd: Reading, kind: Kind, o: usize, at: usize) -> Call
    ensures { result ≡ arrow_code rd kind o (left s.now at) at }
{
    words::code_token(kind, o, at, code::code(s, rd, at, o))
}

// After `=>`.
fn right_arrow(s: &[u8], rd: Reading, o: usize, at: usize) -> Call
    ensures { result ≡ right_arrow rd o (left s.now at) at }
{
    match utf8::char_at(s, at) {
        Some((code, width)) => {
            if code == signs::AT {
                return crate::more(1, arrow_look(s, o, at + width));
            }
            if code == signs::QUESTION {
                return crate::more(
                    1,
                    arrow_code(s, rd, Kind::EqualsGreaterThanQuestionCode, o, at + width),
                );
            }
            arrow_code(s, rd, Kind::EqualsGreaterThanCode, o, at)
        }
        None => reading::refuse(Code::UnterminatedCode, o, at, 0),
    }
}

pub fn equals(s: &[u8], rd: Reading, o: usize, at: usize) -> Call
    ensures { result ≡ equals rd o (left s.now at) at }
{
    if is_next(s, at, signs::EQUALS) {
        return reading::plain(Kind::EqualsEquals, o, at + 1, 1);
    }
    if is_next(s, at, signs::GREATER_THAN) {
        return crate::more(1, right_arrow(s, rd, o, at + 1));
    }
    reading::plain(Kind::Equals, o, at, 0)
}
