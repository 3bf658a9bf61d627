// One call: a gap and then a token, an error or the end. It knows nothing of shift, room or work limit.
ghost use Rattle.std.specs.Prelude.{cond, ◌∷◌, ◌≡◌};
ghost use Rattle.unicode_xid.specs.Identifier.{is_identifier_start};
ghost use Rattle.scan.specs.Until.{left};
ghost use Rattle.reading.specs.Answers.{more, told, told_token, told_what};
ghost use Rattle.reading.specs.Next.{starts, token, token_or_end, next};
ghost use Rattle.reading.specs.Symbols.{stray};
ghost use Rattle.reading.specs.Words.{identifierish};

use reading::{Call, What};
use record::{Kind, Reading, Token};
use scan::Skip;
use utf8::signs;

// A character that no rule names, at o: it starts a word, or nothing.
fn other(s: &[u8], rd: Reading, c: u32, o: usize, next: usize) -> Call
    ensures { result ≡ cond (is_identifier_start c) (more 1 (identifierish rd (left s.now o) o (left s.now next) next)) (stray o) }
{
    if unicode_xid::is_identifier_start(c) {
        return crate::more(1, crate::identifier::identifierish(s, rd, o, next));
    }
    crate::symbols::stray(o)
}

// By a first character c at o that is no hash and no symbol of one character; the text goes on at next.
fn starts(s: &[u8], rd: Reading, c: u32, o: usize, next: usize) -> Call
    requires { left s.now o ≡ c ∷ left s.now next }
    ensures { result ≡ starts rd c (left s.now next) o next }
{
    let x = match c {
        signs::BANG => crate::symbols::bang(s, o, next),
        signs::COLON => crate::symbols::colon(s, o, next),
        signs::DOT => crate::symbols::dot(s, o, next),
        signs::EQUALS => crate::symbols::equals(s, rd, o, next),
        signs::AT => crate::symbols::look(s, o, next),
        signs::TILDE => crate::symbols::tilde(s, o, next),
        signs::BACKTICK => words::quotes::escape(s, o, next),
        signs::QUOTE => words::quotes::lifetimeish(s, o, next),
        signs::DOUBLE_QUOTE => words::quotes::string_literal(s, o, next),
        signs::SLASH => crate::symbols::half(o, next),
        signs::MINUS => crate::symbols::minus(s, o, next),
        signs::LOWER_R => crate::regex::r_word(s, rd, o, next),
        _ => {
            return other(s, rd, c, o, next);
        }
    };
    crate::more(1, x)
}

// The token that starts with the character c at o, after which the text goes on at next.
fn token(s: &[u8], rd: Reading, c: u32, o: usize, next: usize) -> Call
    requires { left s.now o ≡ c ∷ left s.now next }
    ensures { result ≡ token rd c (left s.now next) o next }
{
    let kind = match c {
        signs::HASH => {
            return crate::more(1, crate::attribute::hash(s, rd, o, next));
        }
        signs::AMPERSAND => Kind::Ampersand,
        signs::COMMA => Kind::Comma,
        signs::GREATER_THAN => Kind::GreaterThan,
        signs::LEFT_BRACE => Kind::LeftBrace,
        signs::LEFT_BRACKET => Kind::LeftBracket,
        signs::LEFT_PAREN => Kind::LeftParen,
        signs::LESS_THAN => Kind::LessThan,
        signs::PLUS => Kind::Plus,
        signs::QUESTION => Kind::Question,
        signs::RIGHT_BRACE => Kind::RightBrace,
        signs::RIGHT_BRACKET => Kind::RightBracket,
        signs::RIGHT_PAREN => Kind::RightParen,
        signs::SEMI => Kind::Semi,
        signs::STAR => Kind::Star,
        _ => {
            return starts(s, rd, c, o, next);
        }
    };
    reading::plain(kind, o, next, 1)
}

// The token, the error or the end at a place where no gap is.
pub fn token_or_end(s: &[u8], rd: Reading, o: usize) -> Call
    ensures { result ≡ token_or_end rd (left s.now o) o }
{
    match utf8::char_at(s, o) {
        Some((code, width)) => token(s, rd, code, o, o + width),
        None => Call {
            what: What::End,
            at: o as u64,
            advances: 0,
            gap_depth: 0,
            code_depth: 0,
        },
    }
}

// A token's record with both depths.
fn told_token(g: u64, d: u64, t: Token) -> Token
    ensures { result ≡ told_token g d t }
{
    Token {
        gap_depth: Some(g),
        code_depth: Some(d),
        ..t
    }
}

fn told_what(g: u64, d: u64, w: What) -> What
    ensures { result ≡ told_what g d w }
{
    match w {
        What::Got(t) => What::Got(told_token(g, d, t)),
        What::Error(r) => What::Error(r),
        What::End => What::End,
    }
}

// The same call after a gap whose comments go g deep.
fn told(g: usize, x: Call) -> Call
    ensures { result ≡ told g x }
{
    let d = x.code_depth;
    let w = x.what;
    Call {
        what: told_what(g as u64, d, w),
        gap_depth: g as u64,
        ..x
    }
}

// One call from a place.
pub fn next_unshifted(s: &[u8], rd: Reading, at: usize) -> Call
    ensures { result ≡ next rd (left s.now at) at }
{
    let x = crate::gaps::gap(s, at);
    let skip = x.what;
    match skip {
        Ok((p, m)) => told(x.depth, crate::more(m, token_or_end(s, rd, p))),
        Err((r, p, m)) => reading::fail(r, p, m),
    }
}
