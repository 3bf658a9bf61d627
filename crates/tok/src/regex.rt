// What the letter r starts: a regex, a hashed word, or a word.
ghost use Rattle.std.specs.Prelude.{◌≡◌};
ghost use Rattle.scan.specs.Until.{left};
ghost use Rattle.reading.specs.Regex.{regex_token, hashed, regex_literal, r_word};

use reading::Call;
use record::{Code, Kind, Reading};
use scan::{Found, Sought};
use utf8::signs;

// After the opening quote of a regex with h hashes that starts at o.
fn regex_token(s: &[u8], o: usize, h: usize, at: usize) -> Call
    ensures { result ≡ regex_token o h (left s.now at) at }
{
    match scan::regex_end(s, at, h) {
        Ok((place, passed)) => reading::deliver(
            Kind::RegexLiteral,
            o,
            at,
            place - h,
            place + 1,
            passed + 1,
        ),
        Err((place, passed)) => reading::refuse(Code::UnterminatedStringLiteral, o, place, passed),
    }
}

// After r at o and h hashes: a quote, an identifier start, or neither.
fn hashed(s: &[u8], rd: Reading, o: usize, h: usize, at: usize) -> Call
    ensures { result ≡ hashed rd (left s.now o) o h (left s.now at) at }
{
    match utf8::char_at(s, at) {
        Some((code, width)) => {
            if code == signs::DOUBLE_QUOTE {
                return crate::more(1, regex_token(s, o, h, at + width));
            }
            if unicode_xid::is_identifier_start(code) {
                return crate::more(1, crate::identifier::identifierish(s, rd, o, at + width));
            }
            reading::refuse(Code::ExpectedStringLiteral, at, at, 0)
        }
        None => reading::refuse(Code::UnterminatedStringLiteral, o, at, 0),
    }
}

// After r at o, where a hash or a quote stands. Inlined, since it stands in the deepest chain of calls: with it as a call that takes 304 bytes more stack.
#[inline(always)]
fn regex_literal(s: &[u8], rd: Reading, o: usize, at: usize) -> Call
    ensures { result ≡ regex_literal rd (left s.now o) o (left s.now at) at }
{
    match scan::take_until(s, at, Sought::Hashes) {
        Ok((place, passed)) => crate::more(passed, hashed(s, rd, o, passed, place)),
        Err((place, passed)) => reading::refuse(Code::UnterminatedStringLiteral, o, place, passed),
    }
}

// After the letter r at o.
pub fn r_word(s: &[u8], rd: Reading, o: usize, at: usize) -> Call
    ensures { result ≡ r_word rd (left s.now o) o (left s.now at) at }
{
    if scan::is_next(s, at, signs::HASH) {
        return regex_literal(s, rd, o, at);
    }
    if scan::is_next(s, at, signs::DOUBLE_QUOTE) {
        return regex_literal(s, rd, o, at);
    }
    crate::identifier::identifierish(s, rd, o, at)
}
