// A gap's characters, whitespace and comments told apart in one pass.
ghost use Rattle.std.specs.Prelude.{◌≡◌};
ghost use Rattle.scan.specs.Until.{left};
ghost use Rattle.sheet.specs.Apart.{apart};

use crate::Gap;
use scan::Turn;
use utf8::signs;

// A gap of any kind. A loop for the reason that `code` has.
fn apart_far(s: &[u8], from: usize) -> Gap
    ensures { result ≡ apart (left s.now from) from }
{
    let mut at = from;
    let mut white: usize = 0;
    let mut comment: usize = 0;
    let mut deep: usize = 0;
    loop {
        let to = tok::gaps::gap_run(s, at);
        white += to - at;
        at = to;
        match utf8::char_at(s, at) {
            Some((code, width)) => {
                let x = tok::gaps::gap_turn(s, at, at + width, code);
                let what = x.what;
                match what {
                    Turn::Stop => {
                        return Ok((at, white, comment, deep));
                    }
                    Turn::Fail(r, _, m) => {
                        return Err((r, white + comment + 1 + m));
                    }
                    Turn::Pass(p, m, _) => {
                        at = p;
                        if code == signs::SLASH {
                            comment = comment + 1 + m;
                            deep = scan::deeper(deep, x.depth);
                        } else {
                            white = white + 1;
                        }
                    }
                }
            }
            None => {
                return Ok((at, white, comment, deep));
            }
        }
    }
}

// What stands before the next token: white space below 128 and no more, most often.
pub fn apart(s: &[u8], from: usize) -> Gap
    ensures { result ≡ apart (left s.now from) from }
{
    let to = tok::gaps::gap_run(s, from);
    if to < s.len() {
        let x = s[to];
        if x < 128 {
            if x != b'/' {
                return Ok((to, to - from, 0, 0));
            }
        }
    }
    apart_far(s, from)
}
