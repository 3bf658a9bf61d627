// Backtick escapes, strings, and what a quote starts. The opening mark stands at o, what is left at at.
ghost use Rattle.std.specs.Prelude.{◌≡◌, ℕ, ◌<◌};
ghost use Rattle.scan.specs.Until.{left};
ghost use Rattle.scan.specs.Seek.{seek};
ghost use Rattle.scan.specs.declared.Sought.TheVariants.{Word};
ghost use Rattle.reading.specs.Quotes.{string_or_char_literal, escape, string_literal, char_literal, lifetime_by, lifetimeish};

use reading::Call;
use record::{Code, Kind};
use scan::{Found, Sought, is_next};
use utf8::signs;

// What stands from at to its closing mark is the payload.
fn string_or_char_literal(kind: Kind, code: Code, o: usize, at: usize, found: Found) -> Call
    requires { (p m : ℕ) → found ≡ Ok (p, m) → (p < 18446744073709551615) × (m < 18446744073709551615) }
    ensures { result ≡ string_or_char_literal kind code o at found }
{
    match found {
        Ok((place, passed)) => reading::deliver(kind, o, at, place, place + 1, passed + 1),
        Err((place, passed)) => reading::refuse(code, o, place, passed),
    }
}

pub fn escape(s: &[u8], o: usize, at: usize) -> Call
    ensures { result ≡ escape o (left s.now at) at }
{
    string_or_char_literal(
        Kind::Escape,
        Code::UnterminatedEscape,
        o,
        at,
        scan::take_until(s, at, Sought::Backtick),
    )
}

pub fn string_literal(s: &[u8], o: usize, at: usize) -> Call
    ensures { result ≡ string_literal o (left s.now at) at }
{
    string_or_char_literal(
        Kind::StringLiteral,
        Code::UnterminatedStringLiteral,
        o,
        at,
        scan::string_end(s, at, signs::DOUBLE_QUOTE),
    )
}

fn char_literal(s: &[u8], o: usize, at: usize) -> Call
    ensures { result ≡ char_literal o (left s.now at) at }
{
    string_or_char_literal(
        Kind::CharLiteral,
        Code::UnterminatedCharacterLiteral,
        o,
        at,
        scan::string_end(s, at, signs::QUOTE),
    )
}

// A word after a quote: a quote directly after it makes a literal; else a lifetime, whose payload includes the quote.
fn lifetime(s: &[u8], o: usize, at: usize) -> Call
    ensures { result ≡ lifetime_by o (left s.now at) at (seek Word (left s.now at) at) }
{
    match scan::word(s, at) {
        Ok((place, passed)) => {
            if is_next(s, place, signs::QUOTE) {
                return reading::deliver(Kind::CharLiteral, o, at, place, place + 1, passed + 1);
            }
            reading::deliver(Kind::Lifetime, o, o, place, place, passed)
        }
        Err((p, m)) => reading::deliver(Kind::Lifetime, o, o, p, p, m),
    }
}

pub fn lifetimeish(s: &[u8], o: usize, at: usize) -> Call
    ensures { result ≡ lifetimeish o (left s.now at) at }
{
    match utf8::char_at(s, at) {
        Some((code, _)) => {
            if unicode_xid::is_identifier_start(code) {
                return lifetime(s, o, at);
            }
            char_literal(s, o, at)
        }
        None => reading::refuse(Code::UnterminatedCharacterLiteral, o, at, 0),
    }
}
