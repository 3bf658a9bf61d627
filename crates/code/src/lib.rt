// Where action code ends: the Rust's `code`, and the readers that cover in it. An answer names a place, and the characters passed to
// come there, as the ledger counts them.
#![tactic(auto)]

ghost use Rattle.std.specs.Prelude.{◌≡◌, ◌≤◌, ◌+◌, ◌-◌, ◌<◌, drop};
ghost use Rattle.utf8.specs.Utf8.{chars};
ghost use Rattle.record.specs.Records.{refusal};
ghost use Rattle.utf8.specs.Chars.{'/};
ghost use Rattle.scan.specs.Depth.{comment_depth, cover_depth, slash_depth};
ghost use Rattle.scan.specs.Seek.{block_comment, skip_more};
ghost use Rattle.scan.specs.Walk.{turn_of};
ghost use Rattle.scan.specs.Passes.{passed_of};
ghost use Rattle.scan.specs.Runs.{run};
ghost use Rattle.code.specs.Stops.{class_stop, code_stops};
ghost use Rattle.code.specs.Code.{slash_skip, quote_last, quote_end, one_skip, esc_skip, quote_skip, regex_start, closing_hashes, body_skip, hash_skip, r_skip, opens, closes, code_turn, code_end, code_depth_of};

use record::{Code, Reading, Refusal};
use scan::runs::Stop;
use scan::{Deep, Found, Skip, Sought, Turn};
use utf8::signs;

// What starts at o is refused; the cursor stands at p, after m characters.
fn lost(code: Code, o: usize, p: usize, m: usize) -> Skip
    ensures { result ≡ Err (refusal code o, p, m) }
{
    let r = Refusal {
        code,
        place: o as u64,
    };
    Err((r, p, m))
}

// A cover's answer with n more characters passed before it.
fn skip_more(n: usize, x: Skip) -> Skip
    requires { n + passed_of x < 18446744073709551616 }
    ensures { result ≡ skip_more n x }
{
    match x {
        Ok((p, m)) => Ok((p, n + m)),
        Err((r, p, m)) => Err((r, p, n + m)),
    }
}

// A block comment that starts at o, from after its slash and star; the star is counted.
fn block_skip(s: &[u8], at: usize, o: usize) -> Deep<Skip>
    ensures { (result.what ≡ skip_more 1 (block_comment o (chars (drop at s.now)) at)) × (result.depth ≡ comment_depth (chars (drop at s.now))) }
{
    let x = scan::block_comment(s, at, o);
    let skip = x.what;
    Deep {
        what: skip_more(1, skip),
        depth: x.depth,
    }
}

// What is passed without a block comment.
fn flat(what: Skip) -> Deep<Skip>
    ensures { (result.what ≡ what) × (result.depth ≡ 0) }
{
    Deep { what, depth: 0 }
}

// After a slash at o: a comment, or nothing to pass.
fn slash_skip(s: &[u8], at: usize, o: usize) -> Deep<Skip>
    ensures { (result.what ≡ slash_skip o (chars (drop at s.now)) at) × (result.depth ≡ slash_depth (chars (drop at s.now))) }
{
    match utf8::char_at(s, at) {
        Some((code, width)) => {
            if code == signs::SLASH {
                return flat(scan::up_to(scan::take_until(s, at, Sought::Newline)));
            }
            if code == signs::STAR {
                return block_skip(s, at + width, o);
            }
            flat(Ok((at, 0)))
        }
        None => flat(Ok((at, 0))),
    }
}

// ODDITY, where the readings differ: at the end of the text, after a quoted literal that starts at o. In the old reading the text must go on (the Rust's `bump`
// answers nothing there).
fn quote_last(rd: Reading, at: usize, o: usize, m: usize) -> Skip
    ensures { result ≡ skip_more m (quote_last rd o at) }
{
    match rd {
        Reading::Old => lost(Code::UnterminatedCharacterLiteral, o, at, m),
        Reading::Kept => Ok((at, m)),
    }
}

// After a quoted literal that starts at o.
fn quote_end(s: &[u8], rd: Reading, at: usize, o: usize, m: usize) -> Skip
    ensures { result ≡ skip_more m (quote_end rd o (chars (drop at s.now)) at) }
{
    match utf8::char_at(s, at) {
        Some((_, _)) => Ok((at, m)),
        None => quote_last(rd, at, o, m),
    }
}

// After a quote at o and one character: a quote, if there is one.
fn one_skip(s: &[u8], rd: Reading, at: usize, o: usize) -> Skip
    ensures { result ≡ skip_more 1 (one_skip rd o (chars (drop at s.now)) at) }
{
    match utf8::char_at(s, at) {
        Some((code, width)) => {
            if code == signs::QUOTE {
                return quote_end(s, rd, at + width, o, 2);
            }
            Ok((at, 1))
        }
        None => quote_end(s, rd, at, o, 1),
    }
}

// After a quote at o and a backslash: a character, and all through the next quote.
fn esc_skip(s: &[u8], rd: Reading, at: usize, o: usize) -> Skip
    ensures { result ≡ skip_more 1 (esc_skip rd o (chars (drop at s.now)) at) }
{
    match utf8::char_at(s, at) {
        Some((_, width)) => match scan::take_until(s, at + width, Sought::Quote) {
            Ok((place, passed)) => quote_end(s, rd, place + 1, o, passed + 3),
            Err((place, passed)) => {
                lost(Code::UnterminatedCharacterLiteral, o, place, passed + 2)
            }
        },
        None => lost(Code::UnterminatedCharacterLiteral, o, at, 1),
    }
}

// After a quote at o.
fn take_lifetime_or_character_literal(s: &[u8], rd: Reading, at: usize, o: usize) -> Skip
    ensures { result ≡ quote_skip rd o (chars (drop at s.now)) at }
{
    match utf8::char_at(s, at) {
        Some((code, width)) => {
            if code == signs::BACKSLASH {
                return esc_skip(s, rd, at + width, o);
            }
            one_skip(s, rd, at + width, o)
        }
        None => lost(Code::UnterminatedCharacterLiteral, o, at, 0),
    }
}

// ODDITY, where the readings differ: a regex in code starts, in the old reading, at its first hash, and not at its letter r.
fn regex_start(rd: Reading, r: usize, first: usize) -> usize
    ensures { result ≡ regex_start rd r first }
{
    match rd {
        Reading::Old => first,
        Reading::Kept => r,
    }
}

// One hash fewer.
fn less(m: usize) -> usize
    ensures { result ≡ m - 1 }
{
    if m == 0 {
        return 0;
    }
    m - 1
}

// ODDITY, where the readings differ: so it needs, in the old reading, one hash fewer to close than it has.
fn closing_hashes(rd: Reading, m: usize) -> usize
    ensures { result ≡ closing_hashes rd m }
{
    match rd {
        Reading::Old => less(m),
        Reading::Kept => m,
    }
}

// After m hashes of what starts at o: a regex, a word, or neither.
fn body_skip(s: &[u8], rd: Reading, at: usize, o: usize, m: usize) -> Skip
    ensures { result ≡ body_skip rd o m (chars (drop at s.now)) at }
{
    match utf8::char_at(s, at) {
        Some((code, width)) => {
            if code == signs::DOUBLE_QUOTE {
                return skip_more(1, scan::regex_skip(s, at + width, o, closing_hashes(rd, m)));
            }
            if unicode_xid::is_identifier_start(code) {
                return skip_more(1, scan::up_to(scan::word(s, at + width)));
            }
            lost(Code::ExpectedStringLiteral, at, at, 0)
        }
        None => lost(Code::UnterminatedStringLiteral, o, at, 0),
    }
}

// Hashes from a place, of what starts at o, and what stands after them: the part of the Rust's `regex_literal` that follows the r.
fn hash_skip(s: &[u8], rd: Reading, at: usize, o: usize) -> Skip
    ensures { result ≡ hash_skip rd o (chars (drop at s.now)) at }
{
    match scan::take_until(s, at, Sought::Hashes) {
        Ok((place, passed)) => skip_more(passed, body_skip(s, rd, place, o, passed)),
        Err((place, passed)) => { lost(Code::UnterminatedStringLiteral, o, place, passed) }
    }
}

// After a letter r at r.
fn r_skip(s: &[u8], rd: Reading, at: usize, r: usize) -> Skip
    ensures { result ≡ r_skip rd r (chars (drop at s.now)) at }
{
    if scan::is_next(s, at, signs::HASH) {
        return hash_skip(s, rd, at, regex_start(rd, r, at));
    }
    Ok((at, 0))
}

fn is_open(c: u32) -> bool
    ensures { result ≡ opens c }
{
    if c == signs::LEFT_PAREN {
        return true;
    }
    if c == signs::LEFT_BRACKET {
        return true;
    }
    c == signs::LEFT_BRACE
}

fn is_close(c: u32) -> bool
    ensures { result ≡ closes c }
{
    if c == signs::RIGHT_PAREN {
        return true;
    }
    if c == signs::RIGHT_BRACKET {
        return true;
    }
    c == signs::RIGHT_BRACE
}

// What the character c at a place does, with b brackets open, if it is no slash. Any closer answers any opener.
fn code_turn(s: &[u8], rd: Reading, at: usize, next: usize, c: u32, b: usize) -> Turn
    requires { (b < 9223372036854775808) × (c ≡ '/ → ⊥) }
    ensures { result ≡ code_turn rd b c (chars (drop next s.now)) at next }
{
    if c == signs::DOUBLE_QUOTE {
        return scan::to_turn(b, scan::string_skip(s, next, at));
    }
    if c == signs::QUOTE {
        return scan::to_turn(b, take_lifetime_or_character_literal(s, rd, next, at));
    }
    if c == signs::LOWER_R {
        return scan::to_turn(b, r_skip(s, rd, next, at));
    }
    if is_open(c) {
        return Turn::Pass(next, 0, b + 1);
    }
    if 0 < b {
        if is_close(c) {
            return Turn::Pass(next, 0, b - 1);
        }
        return Turn::Pass(next, 0, b);
    }
    if c == signs::COMMA {
        return Turn::Stop;
    }
    if c == signs::SEMI {
        return Turn::Stop;
    }
    if is_close(c) {
        return Turn::Stop;
    }
    Turn::Pass(next, 0, b)
}

// What a slash at a place does.
fn slash_turn(s: &[u8], at: usize, next: usize, b: usize) -> Deep<Turn>
    ensures { (result.what ≡ turn_of b (slash_skip at (chars (drop next s.now)) next)) × (result.depth ≡ slash_depth (chars (drop next s.now))) }
{
    let x = slash_skip(s, next, at);
    let skip = x.what;
    Deep {
        what: scan::to_turn(b, skip),
        depth: x.depth,
    }
}

// What the character c at a place does, with b brackets open, and how deep the comment goes that it starts.
fn turn(s: &[u8], rd: Reading, at: usize, next: usize, c: u32, b: usize) -> Deep<Turn>
    requires { b < 9223372036854775808 }
    ensures { (result.what ≡ code_turn rd b c (chars (drop next s.now)) at next) × (result.depth ≡ cover_depth c (chars (drop next s.now))) }
{
    if c == signs::SLASH {
        return slash_turn(s, at, next, b);
    }
    Deep {
        what: code_turn(s, rd, at, next, c, b),
        depth: 0,
    }
}

// A byte that has no dot in the table.
#[derive(Clone, Copy)]
struct NotDot<'a> {
    table: &'a [u8; 256],
}

impl<'a> Stop for NotDot<'a> {
    ghost stops = { λ o. class_stop o.table.now };

    fn stops(&self, x: u8) -> bool {
        self.table[usize::from(x)] != b'.'
    }
}

// Up to a byte that has no dot in the table: for speed alone. What a run is, is said by `run`.
fn code_run<'a>(stops: &'a [u8; 256], s: &'a [u8], from: usize) -> usize
    ensures { result ≡ from + run (class_stop stops.now) (drop from s.now) }
{
    scan::runs::run(s, from, NotDot { table: stops })
}

// The loop of `code`, with a table of all bytes: a dot for each one that changes nothing. A loop: a turn goes on where its reader ends. Its turn,
// its state and its end are its own: one walk over closures would ask every caller for as many clauses as this loop has.
fn code_by<'a>(
    stops: &'a [u8; 256],
    s: &'a [u8],
    rd: Reading,
    at: usize,
    start: usize,
) -> Deep<Skip>
    requires { stops.now ≡ code_stops }
    ensures { (result.what ≡ code_end rd start (chars (drop at s.now)) at) × (result.depth ≡ code_depth_of rd (chars (drop at s.now)) at) }
{
    let mut p = at;
    let mut n: usize = 0;
    let mut b: usize = 0;
    let mut deep: usize = 0;
    loop {
        let to = code_run(stops, s, p);
        n = n + (to - p);
        p = to;
        match utf8::char_at(s, p) {
            Some((code, width)) => {
                let x = turn(s, rd, p, p + width, code, b);
                let what = x.what;
                match what {
                    Turn::Stop => {
                        return Deep {
                            what: Ok((p, n)),
                            depth: deep,
                        };
                    }
                    Turn::Fail(r, q, m) => {
                        return Deep {
                            what: Err((r, q, n + 1 + m)),
                            depth: deep,
                        };
                    }
                    Turn::Pass(q, m, d) => {
                        p = q;
                        n = n + 1 + m;
                        b = d;
                        deep = scan::deeper(deep, x.depth);
                    }
                }
            }
            None => {
                if b == 0 {
                    return Deep {
                        what: Ok((p, n)),
                        depth: deep,
                    };
                }
                return Deep {
                    what: lost(Code::UnterminatedCode, start, p, n),
                    depth: deep,
                };
            }
        }
    }
}

// The Rust's `code`: where the code from a place ends, for a token that starts at `start`, and the greatest depth of the comments in it. The table is
// lent once for the whole loop.
pub fn code(s: &[u8], rd: Reading, at: usize, start: usize) -> Deep<Skip>
    ensures { (result.what ≡ code_end rd start (chars (drop at s.now)) at) × (result.depth ≡ code_depth_of rd (chars (drop at s.now)) at) }
{
    code_by(
        b"..................................#....###..#..#...........#...............................#.#....................#........#.#..################################################################################################################################",
        s,
        rd,
        at,
        start,
    )
}
