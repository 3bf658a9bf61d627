// Gaps: whitespace; `//` up to but not including newline or end; nested `/* */`.
ghost use Rattle.std.specs.Prelude.{◌+◌, ◌<◌, true, ◌≡◌, drop, get_or, length};
ghost use Rattle.utf8.specs.Chars.{'/};
ghost use Rattle.scan.specs.Depth.{comment_depth, cover_depth, slash_depth};
ghost use Rattle.scan.specs.Runs.{run};
ghost use Rattle.scan.specs.Seek.{block_comment, skip_more};
ghost use Rattle.scan.specs.Until.{left};
ghost use Rattle.scan.specs.Walk.{turn_of};
ghost use Rattle.reading.specs.Gaps.{comment_turn, gap_turn, gap, gap_depth_of};
ghost use Rattle.reading.specs.Steps.{gap_stop};

use scan::runs::Stop;
use scan::{Deep, Skip, Sought, Turn};
use utf8::signs;

// A block comment that starts at o, from after its slash and star; the star is counted.
fn block_turn(s: &[u8], at: usize, o: usize) -> Deep<Turn>
    ensures { (result.what ≡ turn_of 0 (skip_more 1 (block_comment o (left s.now at) at))) × (result.depth ≡ comment_depth (left s.now at)) }
{
    let x = scan::block_comment(s, at, o);
    let depth = x.depth;
    let skip = x.what;
    match skip {
        Ok((p, m)) => Deep {
            what: Turn::Pass(p, 1 + m, 0),
            depth,
        },
        Err((r, p, m)) => Deep {
            what: Turn::Fail(r, p, 1 + m),
            depth,
        },
    }
}

// What no block comment does.
fn flat(what: Turn) -> Deep<Turn>
    ensures { (result.what ≡ what) × (result.depth ≡ 0) }
{
    Deep { what, depth: 0 }
}

// After a slash at o.
fn comment_turn(s: &[u8], at: usize, o: usize) -> Deep<Turn>
    ensures { (result.what ≡ comment_turn o (left s.now at) at) × (result.depth ≡ slash_depth (left s.now at)) }
{
    match utf8::char_at(s, at) {
        Some((code, width)) => {
            if code == signs::SLASH {
                let line = scan::up_to(scan::take_until(s, at, Sought::Newline));
                return flat(scan::to_turn(0, line));
            }
            if code == signs::STAR {
                return block_turn(s, at + width, o);
            }
            flat(Turn::Stop)
        }
        None => flat(Turn::Stop),
    }
}

// The character c at a place, with the text going on at next.
pub fn gap_turn(s: &[u8], at: usize, next: usize, c: u32) -> Deep<Turn>
    ensures { (result.what ≡ gap_turn 0 c (left s.now next) at next) × (result.depth ≡ cover_depth c (left s.now next)) }
{
    if c == signs::SLASH {
        return comment_turn(s, next, at);
    }
    if unicode_xid::is_whitespace(c) {
        return flat(Turn::Pass(next, 0, 0));
    }
    flat(Turn::Stop)
}

// A byte of a longer character, or one that is no white space.
#[derive(Clone, Copy)]
struct NotSpace;

impl Stop for NotSpace {
    ghost stops = { λ o. gap_stop };

    fn stops(&self, x: u8) -> bool {
        if 128 <= x {
            return true;
        }
        if unicode_xid::is_whitespace(u32::from(x)) {
            return false;
        }
        true
    }
}

// Where the bytes below 128 from a place end that are white space: for speed alone.
pub fn gap_run(s: &[u8], from: usize) -> usize
    ensures { result ≡ from + run gap_stop (drop from s.now) }
{
    scan::runs::run(s, from, NotSpace)
}

// Whether a byte below 128 stands at a place that starts no comment: after a run of white space most gaps end at one, which is not looked at again.
fn is_over(s: &[u8], at: usize) -> bool
    ensures { result ≡ true → (at < length s.now) × (get_or s.now at 0 < 128) × (get_or s.now at 0 ≡ '/ → ⊥) }
{
    if s.len() <= at {
        return false;
    }
    let x = s[at];
    (x < 128) & (x != b'/')
}

// A gap of any kind. A loop for the reason that `code` has.
fn gap_far(s: &[u8], from: usize) -> Deep<Skip>
    ensures { (result.what ≡ gap (left s.now from) from) × (result.depth ≡ gap_depth_of (left s.now from) from) }
{
    let mut at = from;
    let mut n: usize = 0;
    let mut deep: usize = 0;
    loop {
        let to = gap_run(s, at);
        n += to - at;
        at = to;
        match utf8::char_at(s, at) {
            Some((code, width)) => {
                let x = gap_turn(s, at, at + width, code);
                let what = x.what;
                match what {
                    Turn::Stop => {
                        return Deep {
                            what: Ok((at, n)),
                            depth: deep,
                        };
                    }
                    Turn::Fail(r, p, m) => {
                        return Deep {
                            what: Err((r, p, n + 1 + m)),
                            depth: deep,
                        };
                    }
                    Turn::Pass(p, m, _) => {
                        at = p;
                        n = n + 1 + m;
                        deep = scan::deeper(deep, x.depth);
                    }
                }
            }
            None => {
                return Deep {
                    what: Ok((at, n)),
                    depth: deep,
                };
            }
        }
    }
}

// What stands before the next token: white space below 128 and no more, most often.
pub fn gap(s: &[u8], from: usize) -> Deep<Skip>
    ensures { (result.what ≡ gap (left s.now from) from) × (result.depth ≡ gap_depth_of (left s.now from) from) }
{
    let to = gap_run(s, from);
    if is_over(s, to) {
        return Deep {
            what: Ok((to, to - from)),
            depth: 0,
        };
    }
    gap_far(s, from)
}
