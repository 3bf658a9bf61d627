// What a hash starts: an attribute; or, if that attempt fails, Hash, with the cursor just after the hash.
ghost use Rattle.std.specs.Prelude.{◌≡◌, ◌+◌, ◌<◌, drop};
ghost use Rattle.record.specs.declared.Reading.TheVariants.{Old};
ghost use Rattle.scan.specs.Until.{left};
ghost use Rattle.scan.specs.Far.{after};
ghost use Rattle.scan.specs.Runs.{run};
ghost use Rattle.scan.specs.Walk.{walk};
ghost use Rattle.reading.specs.Sights.{attribute_stop};
ghost use Rattle.reading.specs.Attribute.{advances_of, attribute_turn, attribute_last, attempt_more, attempt_body, attempt_bracket, attempt, dropped, attribute_token, hash};

use reading::{Attempt, Call};
use record::{Kind, Reading};
use scan::runs::Stop;
use scan::{Skip, Turn, is_next};
use utf8::signs;

// What the character c at a place does, with b brackets open: the balancing bracket and a newline stop, strings are read whole.
fn attribute_turn(s: &[u8], at: usize, next: usize, c: u32, b: usize) -> Turn
    requires { b < 9223372036854775808 }
    ensures { result ≡ attribute_turn b c (left s.now next) at next }
{
    if c == signs::LEFT_BRACKET {
        return Turn::Pass(next, 0, b + 1);
    }
    if c == signs::RIGHT_BRACKET {
        if b < 2 {
            return Turn::Stop;
        }
        return Turn::Pass(next, 0, b - 1);
    }
    if c == signs::DOUBLE_QUOTE {
        return scan::to_turn(b, scan::string_skip(s, next, at));
    }
    if c == signs::NEWLINE {
        return Turn::Stop;
    }
    Turn::Pass(next, 0, b)
}

// A byte that the body does not only pass: a bracket, a quote, a newline, or one of a longer character.
#[derive(Clone, Copy)]
struct NotPlain;

impl Stop for NotPlain {
    ghost stops = { λ o. attribute_stop };

    fn stops(&self, x: u8) -> bool {
        (x == b'[') | (x == b']') | (x == b'"') | (x == b'\n') | (128 <= x)
    }
}

// Where the bytes from a place end that are ASCII and that the body only passes: for speed alone.
fn attribute_run(s: &[u8], from: usize) -> usize
    ensures { result ≡ from + run attribute_stop (drop from s.now) }
{
    scan::runs::run(s, from, NotPlain)
}

// Where the body of an attempt stops, after `#![`. A loop for the reason that `code` has.
fn body_end(s: &[u8], from: usize) -> Skip
    ensures { result ≡ walk attribute_turn attribute_last 1 (left s.now from) from }
{
    let mut at = from;
    let mut n: usize = 0;
    let mut b: usize = 1;
    loop {
        let to = attribute_run(s, at);
        n += to - at;
        at = to;
        match utf8::char_at(s, at) {
            Some((code, width)) => match attribute_turn(s, at, at + width, code, b) {
                Turn::Stop => {
                    return Ok((at, n));
                }
                Turn::Fail(r, p, m) => {
                    return Err((r, p, n + 1 + m));
                }
                Turn::Pass(p, m, balance) => {
                    at = p;
                    n = n + 1 + m;
                    b = balance;
                }
            },
            None => {
                return Ok((at, n));
            }
        }
    }
}

// It is closed if it stopped at a bracket.
fn attempt_body(s: &[u8], at: usize) -> Attempt
    ensures { result ≡ attempt_body (left s.now at) at }
{
    match body_end(s, at) {
        Ok((p, m)) => {
            if is_next(s, p, signs::RIGHT_BRACKET) {
                return Ok((p + 1, m + 1));
            }
            Err((p, m))
        }
        Err((_, p, m)) => Err((p, m)),
    }
}

// The same attempt with one character before it.
fn one_more(x: Attempt) -> Attempt
    requires { advances_of x < 9223372036854775808 }
    ensures { result ≡ attempt_more 1 x }
{
    match x {
        Ok((p, m)) => Ok((p, 1 + m)),
        Err((p, m)) => Err((p, 1 + m)),
    }
}

// After `#!`. A character that does not fit is passed too.
fn attempt_bracket(s: &[u8], at: usize) -> Attempt
    ensures { result ≡ attempt_bracket (left s.now at) at }
{
    match utf8::char_at(s, at) {
        Some((code, width)) => {
            if code == signs::LEFT_BRACKET {
                return one_more(attempt_body(s, at + width));
            }
            Err((at + width, 1))
        }
        None => Err((at, 0)),
    }
}

// After `#`.
fn shebang_attribute(s: &[u8], at: usize) -> Attempt
    ensures { result ≡ attempt (left s.now at) at }
{
    match utf8::char_at(s, at) {
        Some((code, width)) => {
            if code == signs::BANG {
                return one_more(attempt_bracket(s, at + width));
            }
            Err((at + width, 1))
        }
        None => Err((at, 0)),
    }
}

// The cursor after an attribute, and the characters that it passed.
#[derive(Clone, Copy)]
struct Tail {
    at: usize,
    passed: usize,
}

// One further character, if there is one.
fn one_dropped(s: &[u8], p: usize) -> Tail
    ensures { (result.at ≡ after (dropped Old (left s.now p)) (left s.now p) p) × (result.passed ≡ dropped Old (left s.now p)) }
{
    match utf8::char_at(s, p) {
        Some((_, width)) => Tail {
            at: p + width,
            passed: 1,
        },
        None => Tail { at: p, passed: 0 },
    }
}

// ODDITY, where the readings differ: after an attribute one further character is passed, in the old reading, and belongs to no token; in the kept one none.
fn dropped(s: &[u8], rd: Reading, p: usize) -> Tail
    ensures { (result.at ≡ after (dropped rd (left s.now p)) (left s.now p) p) × (result.passed ≡ dropped rd (left s.now p)) }
{
    match rd {
        Reading::Old => one_dropped(s, p),
        Reading::Kept => Tail { at: p, passed: 0 },
    }
}

// The attribute from o to p, and what is dropped after it.
fn attribute_token(s: &[u8], rd: Reading, o: usize, p: usize) -> Call
    ensures { result ≡ attribute_token rd o (left s.now p) p }
{
    let t = dropped(s, rd, p);
    let x = reading::deliver(Kind::ShebangAttribute, o, o, p, p, 0);
    let w = x.what;
    Call {
        what: w,
        at: t.at as u64,
        advances: t.passed as u64,
        gap_depth: 0,
        code_depth: 0,
    }
}

// After a hash at o. The advances of a failed attempt stay counted.
pub fn hash(s: &[u8], rd: Reading, o: usize, at: usize) -> Call
    ensures { result ≡ hash rd o (left s.now at) at }
{
    match shebang_attribute(s, at) {
        Ok((p, m)) => crate::more(m, attribute_token(s, rd, o, p)),
        Err((_, m)) => reading::plain(Kind::Hash, o, at, m),
    }
}
