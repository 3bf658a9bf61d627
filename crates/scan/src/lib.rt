// Readers with no reader inside: the Rust's `take_until` and its family, a loop for each closure that it is given. Each goes over the
// characters from a place, and answers the place of the character that ends what it reads, with the number of characters passed. They are loops:
// the step is as wide as the character, and each keeps a state with a bound of its own, which one loop over a closure would ask of every caller.
#![tactic(auto)]

pub mod runs;

ghost use Rattle.std.specs.Prelude.{◌≡◌, true, false, ℕ, ◌≤◌, ◌+◌, ◌-◌, ◌<◌, length, drop};
ghost use Rattle.utf8.specs.Utf8.{chars};
ghost use Rattle.scan.specs.Readers.{str_step, str_done, string_end, com_step, com_done, depth_of, comment_end, reg_step, reg_done, regex_end};
ghost use Rattle.scan.specs.Deepens.{com_run};
ghost use Rattle.scan.specs.Depth.{comment_depth, deeper};
ghost use Rattle.scan.specs.IfNext.{if_next};
ghost use Rattle.scan.specs.declared.Sought.TheVariants.{Word};
ghost use Rattle.scan.specs.Seek.{stop_at, seek, up_to, through, string_skip, block_comment, regex_skip};
ghost use Rattle.scan.specs.Walk.{turn_of};

use record::{Code, Refusal};
use utf8::signs;

// Where what is sought stands, or where the text ends without it, as `binary_search` tells both; with the characters passed on the way there.
pub type Found = Result<(usize, usize), (usize, usize)>;

// What a run of characters stops at: the closures without a state.
#[derive(Clone, Copy)]
pub enum Sought {
    Newline,
    Quote,
    Backtick,
    Hashes,
    Word,
}

// What a reader passes: up to a place, with a number of characters; or a refusal, with the cursor and the characters passed till then.
pub type Skip = Result<(usize, usize), (Refusal, usize, usize)>;

// What a character does to a walk: it ends it; what it starts is refused; or it goes on at a place, characters passed, in a state.
#[derive(Clone, Copy)]
pub enum Turn {
    Stop,
    Fail(Refusal, usize, usize),
    Pass(usize, usize, usize),
}

// What a reader of characters that may hold block comments answers, and the greatest depth of those; 0 if there are none.
#[derive(Clone, Copy)]
pub struct Deep<T> {
    pub what: T,
    pub depth: usize,
}

// What a string's reader knows: the Rust's `escape` in `string_or_char_literal`.
#[derive(Clone, Copy)]
pub enum Str {
    Plain,
    Escaped,
    Closed,
}

fn str_step(quote: u32, st: Str, c: u32) -> Str
    ensures { result ≡ str_step quote st c }
{
    match st {
        Str::Plain => {
            if c == signs::BACKSLASH {
                return Str::Escaped;
            }
            if c == quote {
                return Str::Closed;
            }
            Str::Plain
        }
        Str::Escaped => Str::Plain,
        Str::Closed => Str::Closed,
    }
}

fn str_done(st: Str) -> bool
    ensures { result ≡ str_done st }
{
    match st {
        Str::Plain => false,
        Str::Escaped => false,
        Str::Closed => true,
    }
}

// `string_or_char_literal`: the first quote from a place that no backslash escapes.
pub fn string_end(s: &[u8], from: usize, quote: u32) -> Found
    ensures { result ≡ string_end quote (chars (drop from s.now)) from }
{
    let to = runs::plain_run(s, from, signs::BACKSLASH, quote);
    let mut at = to;
    let mut n: usize = to - from;
    let mut st = Str::Plain;
    loop {
        match utf8::char_at(s, at) {
            Some((code, width)) => {
                st = str_step(quote, st, code);
                if str_done(st) {
                    return Ok((at, n));
                }
                at += width;
                n += 1;
            }
            None => {
                return Err((at, n));
            }
        }
    }
}

// What a block comment's reader knows: how deep it is, and whether a slash or a star came last (`State` in `block_comment`).
#[derive(Clone, Copy)]
pub enum Com {
    Open { depth: usize },
    Slash { depth: usize },
    Star { depth: usize },
    Complete,
}

fn com_step(st: Com, c: u32) -> Com
    requires { depth_of st < 9223372036854775808 }
    ensures { result ≡ com_step st c }
{
    match st {
        Com::Open { depth } => {
            if c == signs::STAR {
                return Com::Star { depth };
            }
            if c == signs::SLASH {
                return Com::Slash { depth };
            }
            Com::Open { depth }
        }
        Com::Slash { depth } => {
            if c == signs::STAR {
                return Com::Open { depth: depth + 1 };
            }
            if c == signs::SLASH {
                return Com::Slash { depth };
            }
            Com::Open { depth }
        }
        Com::Star { depth } => {
            if c == signs::STAR {
                return Com::Star { depth };
            }
            if c == signs::SLASH {
                if depth < 2 {
                    return Com::Complete;
                }
                return Com::Open { depth: depth - 1 };
            }
            Com::Open { depth }
        }
        Com::Complete => Com::Complete,
    }
}

fn com_done(st: Com) -> bool
    ensures { result ≡ com_done st }
{
    match st {
        Com::Open { depth: _ } => false,
        Com::Slash { depth: _ } => false,
        Com::Star { depth: _ } => false,
        Com::Complete => true,
    }
}

// How many comments are open.
fn depth_of(st: Com) -> usize
    ensures { result ≡ depth_of st }
{
    match st {
        Com::Open { depth } => depth,
        Com::Slash { depth } => depth,
        Com::Star { depth } => depth,
        Com::Complete => 0,
    }
}

// The greater of two depths.
pub fn deeper(a: usize, b: usize) -> usize
    ensures { result ≡ deeper a b }
{
    if a < b {
        return b;
    }
    a
}

// Up to a byte that may start a mark, unless the character before may have started one: for speed alone.
fn com_run(s: &[u8], at: usize, st: Com) -> usize
    ensures { result ≡ com_run s.now at st }
{
    match st {
        Com::Open { depth: _ } => runs::plain_run(s, at, signs::STAR, signs::SLASH),
        Com::Slash { depth: _ } => at,
        Com::Star { depth: _ } => at,
        Com::Complete => at,
    }
}

// `block_comment`: the slash that closes the comment whose opening mark ends before a place, and the comment's greatest depth.
pub fn comment_end(s: &[u8], from: usize) -> Deep<Found>
    ensures { (result.what ≡ comment_end (chars (drop from s.now)) from) × (result.depth ≡ comment_depth (chars (drop from s.now))) }
{
    let mut at = from;
    let mut n: usize = 0;
    let mut st = Com::Open { depth: 1 };
    let mut most: usize = 1;
    loop {
        let to = com_run(s, at, st);
        n += to - at;
        at = to;
        match utf8::char_at(s, at) {
            Some((code, width)) => {
                st = com_step(st, code);
                if com_done(st) {
                    let found = Ok((at, n));
                    return Deep {
                        what: found,
                        depth: most,
                    };
                }
                most = deeper(most, depth_of(st));
                at += width;
                n += 1;
            }
            None => {
                let open = Err((at, n));
                return Deep {
                    what: open,
                    depth: most,
                };
            }
        }
    }
}

// A regex's reader counts: 0 before a quote, and 1 more than the hashes after it (`state` in `regex_literal`).
fn reg_step(st: usize, c: u32) -> usize
    requires { st < 9223372036854775808 }
    ensures { result ≡ reg_step st c }
{
    if st == 0 {
        if c == signs::DOUBLE_QUOTE {
            return 1;
        }
        return 0;
    }
    if c == signs::HASH {
        return st + 1;
    }
    if c == signs::DOUBLE_QUOTE {
        return 1;
    }
    0
}

fn reg_done(hashes: usize, st: usize) -> bool
    ensures { result ≡ reg_done hashes st }
{
    if st == 0 {
        return false;
    }
    st - 1 == hashes
}

// `regex_literal`: the last character of the quote and the hashes that close a regex.
pub fn regex_end(s: &[u8], from: usize, hashes: usize) -> Found
    ensures { result ≡ regex_end hashes (chars (drop from s.now)) from }
{
    let to = runs::plain_run(s, from, signs::DOUBLE_QUOTE, signs::DOUBLE_QUOTE);
    let mut at = to;
    let mut n: usize = to - from;
    let mut st: usize = 0;
    loop {
        match utf8::char_at(s, at) {
            Some((code, width)) => {
                st = reg_step(st, code);
                if reg_done(hashes, st) {
                    return Ok((at, n));
                }
                at += width;
                n += 1;
            }
            None => {
                return Err((at, n));
            }
        }
    }
}

fn stops(kind: Sought, c: u32) -> bool
    ensures { result ≡ stop_at kind c }
{
    match kind {
        Sought::Newline => c == signs::NEWLINE,
        Sought::Quote => c == signs::QUOTE,
        Sought::Backtick => c == signs::BACKTICK,
        Sought::Hashes => c != signs::HASH,
        Sought::Word => !unicode_xid::is_identifier_continue(c),
    }
}

// `take_until`, and `take_while` for hashes and words: the first character from a place that the kind stops at.
pub fn take_until(s: &[u8], from: usize, kind: Sought) -> Found
    ensures { result ≡ seek kind (chars (drop from s.now)) from }
{
    let to = runs::seek_run(s, from, kind);
    let mut at = to;
    let mut n: usize = to - from;
    loop {
        match utf8::char_at(s, at) {
            Some((code, width)) => {
                if stops(kind, code) {
                    return Ok((at, n));
                }
                at += width;
                n += 1;
            }
            None => {
                return Err((at, n));
            }
        }
    }
}

// The rest of a word.
pub fn word(s: &[u8], from: usize) -> Found
    ensures { result ≡ seek Word (chars (drop from s.now)) from }
{
    take_until(s, from, Sought::Word)
}

// Whether the character k stands at a place.
pub fn is_next(s: &[u8], at: usize, k: u32) -> bool
    ensures { result ≡ if_next k (chars (drop at s.now)) true false }
{
    match utf8::char_at(s, at) {
        Some((code, _)) => code == k,
        None => false,
    }
}

// Up to there, or to the end of the text.
pub fn up_to(f: Found) -> Skip
    ensures { result ≡ up_to f }
{
    match f {
        Ok((place, passed)) => Ok((place, passed)),
        Err((place, passed)) => Ok((place, passed)),
    }
}

// What a cover passed, in a walk's state b.
pub fn to_turn(b: usize, x: Skip) -> Turn
    ensures { result ≡ turn_of b x }
{
    match x {
        Ok((p, m)) => Turn::Pass(p, m, b),
        Err((r, p, m)) => Turn::Fail(r, p, m),
    }
}

// Through the one character that closes what starts at o (`take_until_and_consume_terminating_character`), or that it is never closed.
fn through(code: Code, o: usize, f: Found) -> Skip
    requires { (p m : ℕ) → f ≡ Ok (p, m) → (p < 18446744073709551615) × (m < 18446744073709551615) }
    ensures { result ≡ through code o f }
{
    match f {
        Ok((place, passed)) => Ok((place + 1, passed + 1)),
        Err((place, passed)) => {
            let r = Refusal {
                code,
                place: o as u64,
            };
            Err((r, place, passed))
        }
    }
}

// `string_literal` after the opening quote of a string that starts at o.
pub fn string_skip(s: &[u8], at: usize, o: usize) -> Skip
    ensures { result ≡ string_skip o (chars (drop at s.now)) at }
{
    through(
        Code::UnterminatedStringLiteral,
        o,
        string_end(s, at, signs::DOUBLE_QUOTE),
    )
}

// `block_comment` after the slash and the star of a comment that starts at o.
pub fn block_comment(s: &[u8], at: usize, o: usize) -> Deep<Skip>
    ensures { (result.what ≡ block_comment o (chars (drop at s.now)) at) × (result.depth ≡ comment_depth (chars (drop at s.now))) }
{
    let c = comment_end(s, at);
    let end = c.what;
    Deep {
        what: through(Code::UnterminatedBlockComment, o, end),
        depth: c.depth,
    }
}

// `regex_literal` after the opening quote of a regex with some hashes that starts at o.
pub fn regex_skip(s: &[u8], at: usize, o: usize, hashes: usize) -> Skip
    ensures { result ≡ regex_skip o hashes (chars (drop at s.now)) at }
{
    through(Code::UnterminatedStringLiteral, o, regex_end(s, at, hashes))
}
