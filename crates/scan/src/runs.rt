// Runs of bytes below 128 that leave a reader's state as it is: for speed alone. The readers' loops go on from where a run ends.
ghost use Rattle.std.specs.Prelude.{◌≡◌, ℕ, Bool, ◌+◌, drop};
ghost use Rattle.scan.specs.Runs.{run, plain_stop, seek_stop};
ghost use Rattle.scan.specs.declared.Sought.TheVariants.{Hashes, Word};
ghost use Rattle.unicode_xid.specs.Identifier.{ascii_continue};

use crate::Sought;
use utf8::signs;

// What a run stops at. A trait, since a closure asks of each caller that it may be called.
pub trait Stop: Copy {
    ghost stops: { Self → ℕ → Bool };

    fn stops(&self, x: u8) -> bool
        ensures { result ≡ stops self.now x };
}

// Up to the first byte from a place that is stopped at, or to the end: every run of the readers is this one, with a test of its own. A `for` over
// the places took 1 % more instructions on beside/bench's real grammar.
pub fn run<S: Stop>(s: &[u8], from: usize, stop: S) -> usize
    ensures { result ≡ from + run (S.stops stop) (drop from s.now) }
{
    let mut at = from;
    while at < s.len() {
        if stop.stops(s[at]) {
            return at;
        }
        at += 1;
    }
    at
}

// The character a or b, or a byte of a longer one.
#[derive(Clone, Copy)]
struct OneOf {
    a: u32,
    b: u32,
}

impl Stop for OneOf {
    ghost stops = { λ o. plain_stop o.a o.b };

    fn stops(&self, x: u8) -> bool {
        (u32::from(x) == self.a) | (u32::from(x) == self.b) | (128 <= x)
    }
}

// Up to the character a or b.
pub(crate) fn plain_run(s: &[u8], from: usize, a: u32, b: u32) -> usize
    ensures { result ≡ from + run (plain_stop a b) (drop from s.now) }
{
    run(s, from, OneOf { a, b })
}

// A byte that is no hash.
#[derive(Clone, Copy)]
struct NotHash;

impl Stop for NotHash {
    ghost stops = { λ o. seek_stop Hashes };

    fn stops(&self, x: u8) -> bool {
        x != b'#'
    }
}

// A byte of a word; most are small letters, so these are tested first.
fn word_byte(x: u8) -> bool
    ensures { result ≡ ascii_continue x }
{
    if (97 <= x) & (x <= 122) {
        return true;
    }
    ((65 <= x) & (x <= 90)) | (x == 95) | ((48 <= x) & (x <= 57))
}

// A byte that is none of a word.
#[derive(Clone, Copy)]
struct NotWord;

impl Stop for NotWord {
    ghost stops = { λ o. seek_stop Word };

    fn stops(&self, x: u8) -> bool {
        !word_byte(x)
    }
}

// Up to a character that the kind stops at: a loop for each, so that the kind is not asked at every byte.
pub(crate) fn seek_run(s: &[u8], from: usize, kind: Sought) -> usize
    ensures { result ≡ from + run (seek_stop kind) (drop from s.now) }
{
    match kind {
        Sought::Newline => plain_run(s, from, signs::NEWLINE, signs::NEWLINE),
        Sought::Quote => plain_run(s, from, signs::QUOTE, signs::QUOTE),
        Sought::Backtick => plain_run(s, from, signs::BACKTICK, signs::BACKTICK),
        Sought::Hashes => run(s, from, NotHash),
        Sought::Word => run(s, from, NotWord),
    }
}
