// Whole runs: the single call, the lent tokenizer, the lent list, the limits.
#![tactic(auto)]

ghost use Rattle.std.specs.Prelude.{◌≡◌, ◌+◌, ◌*◌, ◌/◌, ◌<◌, ◌≤◌, true, ltb, drop, length};
ghost use Rattle.std.proofs.lemmas.List.Edits.{sets};
ghost use Rattle.utf8.specs.Utf8.{boundary, chars};
ghost use Rattle.record.specs.Checks.{checks};
ghost use Rattle.record.specs.declared.Code.TheVariants.{NoRoom, WorkLimit};
ghost use Rattle.record.specs.Records.{over, refusal};
ghost use Rattle.reading.specs.Next.{next};
ghost use Rattle.reading.specs.Run.{done_by, shift_token, shift_what, step, step_by};
ghost use Rattle.reading.specs.declared.Outcome.TheVariants.{Ended, Refused};
ghost use Rattle.reading.specs.declared.What.TheVariants.{Got};
ghost use Rattle.run.specs.declared.Group.TheVariants.{Nine};
ghost use Rattle.run.specs.Checked.{next_token, ran_of, whole_run};
ghost use Rattle.run.specs.Numbers.{group_of, group_size, groups, numbers_all, numbers_of, size_of, told_of};
ghost use Rattle.run.specs.Payload.{is_payload, payload, payload_check};
ghost use Rattle.run.specs.Pending.{advance_of, begin_of, ended, goes, halted, pend_of, running};
ghost use Rattle.run.specs.Room.{Onward, Ready, Roomy, RoomyIn};

use reading::{Outcome, Stepped, Tokenizer, What};
use record::{Code, Reading, Refusal, Token};

// How a run ended: how many records it stored, how it stopped, the advances, the tokenizer after it, and how deep the comments go in the gap that it
// read before the end; 0 if it read none or stopped otherwise.
#[derive(Clone, Copy)]
pub struct Ran {
    pub stored: usize,
    pub how: Outcome,
    pub advances: u64,
    pub state: Tokenizer,
    pub last_depth: u64,
}

// How many numbers a record takes where it is laid out in numbers: the five of 01, or nine, with what a run tells besides.
#[derive(Clone, Copy)]
pub enum Group {
    Five,
    Nine,
}

// A token that is read and not stored yet, or none at the end of the run.
#[derive(Clone, Copy)]
pub struct Pending {
    pub token: Option<Token>,
    pub ran: Ran,
}

// The number of what is not told.
const NOT_TOLD: u64 = 18446744073709551615;

// Whether finishing a call would take the advances above the work limit.
fn exceeds(limit: u64, count: u64, advances: u64) -> bool
    ensures { result ≡ ltb limit (count + advances) }
{
    if limit < count {
        return true;
    }
    limit - count < advances
}

// A token's places, with the shift.
fn shift_token(shift: u64, t: Token) -> Token
    requires { RoomyIn shift (Got t) }
    ensures { result ≡ shift_token shift t }
{
    Token {
        start: t.start + shift,
        end: t.end + shift,
        payload_start: t.payload_start + shift,
        payload_end: t.payload_end + shift,
        ..t
    }
}

// An answer's places, with the shift.
fn shift_what(shift: u64, w: What) -> What
    requires { Roomy shift w }
    ensures { result ≡ shift_what shift w }
{
    match w {
        What::Got(t) => What::Got(shift_token(shift, t)),
        What::Error(r) => What::Error(Refusal {
            place: r.place + shift,
            ..r
        }),
        What::End => What::End,
    }
}

// How an answer leaves the tokenizer.
fn done_by(w: What) -> Outcome
    ensures { result ≡ done_by w }
{
    match w {
        What::Got(_) => Outcome::Running,
        What::Error(r) => Outcome::Refused(r),
        What::End => Outcome::Ended,
    }
}

// One call of a tokenizer that is running.
fn read_on(text: &[u8], shift: u64, limit: u64, t: Tokenizer) -> Stepped
    requires { Ready text.now shift t }
    ensures { result ≡ step_by shift limit t (next t.reading (chars (drop t.at text.now)) t.at) }
{
    let at = t.at;
    let count = t.count;
    let rd = t.reading;
    let x = tok::next::next_unshifted(text, rd, at as usize);
    let to = x.at;
    let advances = x.advances;
    if exceeds(limit, count, advances) {
        return Stepped {
            what: What::Error(Refusal {
                code: Code::WorkLimit,
                place: at + shift,
            }),
            next: t,
            gap_depth: 0,
        };
    }
    let what = x.what;
    let shifted = shift_what(shift, what);
    Stepped {
        what: shifted,
        next: Tokenizer {
            at: to,
            count: count + advances,
            done: done_by(shifted),
            reading: rd,
        },
        gap_depth: x.gap_depth,
    }
}

// One call: once an error or the end is answered, it is repeated.
fn step(text: &[u8], shift: u64, limit: u64, t: Tokenizer) -> Stepped
    requires { Ready text.now shift t }
    ensures { result ≡ step text.now shift limit t }
{
    let done = t.done;
    match done {
        Outcome::Running => read_on(text, shift, limit, t),
        Outcome::Ended => Stepped {
            what: What::End,
            next: t,
            gap_depth: 0,
        },
        Outcome::Refused(r) => Stepped {
            what: What::Error(r),
            next: t,
            gap_depth: 0,
        },
    }
}

// The single call, by value.
pub fn next_token(text: &[u8], shift: u64, limit: u64, t: Tokenizer) -> Stepped
    ensures { result ≡ next_token text.now shift limit t }
{
    match record::checks(text, shift) {
        Ok(()) => {
            let at = t.at;
            if utf8::is_boundary(text, at as usize) {
                return step(text, shift, limit, t);
            }
            Stepped {
                what: What::Error(Refusal {
                    code: Code::BadRecord,
                    place: 0,
                }),
                next: t,
                gap_depth: 0,
            }
        }
        Err(r) => Stepped {
            what: What::Error(r),
            next: t,
            gap_depth: 0,
        },
    }
}

// The run stops, with n records stored, at the tokenizer t.
fn halted(n: usize, how: Outcome, advances: u64, t: Tokenizer) -> Pending
    ensures { result ≡ halted n how advances t }
{
    Pending {
        token: None,
        ran: Ran {
            stored: n,
            how,
            advances,
            state: t,
            last_depth: 0,
        },
    }
}

// The run reaches the end, with n records stored, at the tokenizer t, after a gap whose comments go g deep.
fn ended(n: usize, t: Tokenizer, g: u64) -> Pending
    ensures { result ≡ ended n t g }
{
    Pending {
        token: None,
        ran: Ran {
            stored: n,
            how: Outcome::Ended,
            advances: t.count,
            state: t,
            last_depth: g,
        },
    }
}

// A token is to be stored after n others; then the tokenizer is t.
fn goes(n: usize, token: Token, t: Tokenizer) -> Pending
    ensures { result ≡ goes n token t }
{
    Pending {
        token: Some(token),
        ran: Ran {
            stored: n,
            how: Outcome::Running,
            advances: t.count,
            state: t,
            last_depth: 0,
        },
    }
}

// The next token, where there is room for it after n others. Inlined: as a call it copies a whole Pending for each token, 89 instructions of 254 in
// a run over brackets alone.
#[inline(always)]
fn pend(text: &[u8], shift: u64, limit: u64, room: usize, n: usize, t: Tokenizer) -> Pending
    requires { Ready text.now shift t }
    ensures { result ≡ pend_of text.now shift limit room n t }
{
    let s = step(text, shift, limit, t);
    let what = s.what;
    let after = s.next;
    match what {
        What::Got(token) => {
            if n < room {
                return goes(n, token, after);
            }
            let full = Outcome::Refused(Refusal {
                code: Code::NoRoom,
                place: token.start,
            });
            halted(n, full, t.count, t)
        }
        What::Error(r) => halted(n, Outcome::Refused(r), after.count, after),
        What::End => ended(n, after, s.gap_depth),
    }
}

// The first token of a run.
pub fn begin(text: &[u8], shift: u64, limit: u64, room: usize, t: Tokenizer) -> Pending
    ensures { result ≡ begin_of text.now shift limit room t }
{
    match record::checks(text, shift) {
        Ok(()) => {
            let at = t.at;
            if utf8::is_boundary(text, at as usize) {
                return pend(text, shift, limit, room, 0, t);
            }
            let off = Outcome::Refused(Refusal {
                code: Code::BadRecord,
                place: 0,
            });
            halted(0, off, t.count, t)
        }
        Err(r) => halted(0, Outcome::Refused(r), 0, t),
    }
}

// The token after the one that p holds, which is stored.
fn advance(text: &[u8], shift: u64, limit: u64, room: usize, p: Pending) -> Pending
    requires { Onward text.now shift room p }
    ensures { result ≡ advance_of text.now shift limit room p }
{
    let ran = p.ran;
    let n = ran.stored;
    let state = ran.state;
    pend(text, shift, limit, room, n + 1, state)
}

// The single call: the tokenizer is lent, and moved on by it.
pub fn next(text: &[u8], shift: u64, limit: u64, t: &mut Tokenizer) -> What
    ensures { (result ≡ (next_token text.now shift limit t.old).what) × (t.new ≡ (next_token text.now shift limit t.old).next) }
{
    let s = next_token(text, shift, limit, *t);
    *t = s.next;
    s.what
}

// A whole run: each token is stored in the lent list, and the records beyond the count are as they were.
pub fn run(text: &[u8], shift: u64, limit: u64, list: &mut [Token], from: Tokenizer) -> Ran
    ensures { (result ≡ ran_of text.now shift limit (length list.old) from) × (list.new ≡ over (whole_run text.now shift limit (length list.old) from).tokens list.old) }
{
    let room = list.len();
    let mut p = begin(text, shift, limit, room, from);
    while let Some(token) = p.token {
        list[p.ran.stored] = token;
        p = advance(text, shift, limit, room, p);
    }
    p.ran
}

// Whether the places from and to, less the shift, are a range of the text on boundaries.
fn is_payload(text: &[u8], shift: u64, from: u64, to: u64) -> bool
    ensures { result ≡ is_payload text.now shift from to }
{
    if from < shift {
        return false;
    }
    if to < from {
        return false;
    }
    if utf8::is_boundary(text, (from - shift) as usize) {
        return utf8::is_boundary(text, (to - shift) as usize);
    }
    false
}

// The check of a record's payload.
pub fn payload_check(text: &[u8], shift: u64, t: Token) -> Result<(), Refusal>
    ensures { result ≡ payload_check text.now shift t }
{
    if is_payload(text, shift, t.payload_start, t.payload_end) {
        return Ok(());
    }
    Err(Refusal {
        code: Code::BadRecord,
        place: 0,
    })
}

// A record's payload, as a part of the text.
pub fn payload<'a>(text: &'a [u8], shift: u64, t: Token) -> &'a [u8]
    ensures { result.now ≡ payload text.now shift t }
{
    let from = t.payload_start;
    let to = t.payload_end;
    if is_payload(text, shift, from, to) {
        let a = (from - shift) as usize;
        let b = (to - shift) as usize;
        return &text[a..b];
    }
    &text[..0]
}

// How many numbers a group has.
pub fn group_size(g: Group) -> usize
    ensures { (result ≡ size_of g) × (0 < result) × (result ≤ 9) }
{
    match g {
        Group::Five => 5,
        Group::Nine => 9,
    }
}

// A record's five numbers, from a place on.
fn put_five(records: &mut [u64], p: usize, t: Token)
    requires { p + 5 ≤ length records.old }
    ensures { records.new ≡ sets records.old p (numbers_of t) }
{
    let kind = t.kind;
    records[p] = record::kind_number(kind) as u64;
    records[p + 1] = t.start;
    records[p + 2] = t.end;
    records[p + 3] = t.payload_start;
    records[p + 4] = t.payload_end;
}

// What a run tells besides, from a place on. Two numbers are not told yet.
fn put_told(records: &mut [u64], p: usize, t: Token)
    requires { p + 4 ≤ length records.old }
    ensures { records.new ≡ sets records.old p (told_of t) }
{
    let gap = t.gap_depth;
    let code = t.code_depth;
    records[p] = record::told_number(gap);
    records[p + 1] = record::told_number(code);
    records[p + 2] = NOT_TOLD;
    records[p + 3] = NOT_TOLD;
}

// A record as a group of numbers, from a place on.
fn put_group(records: &mut [u64], p: usize, g: Group, t: Token)
    requires { p + size_of g ≤ length records.old }
    ensures { records.new ≡ sets records.old p (group_of g t) }
{
    put_five(records, p, t);
    match g {
        Group::Five => {}
        Group::Nine => {
            put_told(records, p + 5, t);
        }
    }
}

// The next call would go above the work limit: the tokenizer is as before it.
fn over_limit(rd: Reading, n: usize, shift: u64, at: u64, count: u64) -> Ran
    requires { at + shift < 0x10000000000000000 }
    ensures { result ≡ (halted n (Refused (refusal WorkLimit (at + shift))) count (running rd at count)).ran }
{
    let how = Outcome::Refused(Refusal {
        code: Code::WorkLimit,
        place: at + shift,
    });
    let t = Tokenizer {
        at,
        count,
        done: Outcome::Running,
        reading: rd,
    };
    let p = halted(n, how, count, t);
    p.ran
}

// There is no room for the token from `start` on: the tokenizer is as before it.
fn full(rd: Reading, n: usize, shift: u64, start: u64, at: u64, count: u64) -> Ran
    requires { start + shift < 0x10000000000000000 }
    ensures { result ≡ (halted n (Refused (refusal NoRoom (start + shift))) count (running rd at count)).ran }
{
    let how = Outcome::Refused(Refusal {
        code: Code::NoRoom,
        place: start + shift,
    });
    let t = Tokenizer {
        at,
        count,
        done: Outcome::Running,
        reading: rd,
    };
    let p = halted(n, how, count, t);
    p.ran
}

// The call answers an error: the tokenizer keeps it.
fn lost(rd: Reading, n: usize, shift: u64, e: Refusal, at: u64, count: u64) -> Ran
    requires { e.place + shift < 0x10000000000000000 }
    ensures { result ≡ (halted n (Refused (refusal e.code (e.place + shift))) count (record { at = at; count = count; done = Refused (refusal e.code (e.place + shift)); reading = rd })).ran }
{
    let how = Outcome::Refused(Refusal {
        place: e.place + shift,
        ..e
    });
    let t = Tokenizer {
        at,
        count,
        done: how,
        reading: rd,
    };
    let p = halted(n, how, count, t);
    p.ran
}

// The call answers the end, after a gap whose comments go g deep.
fn at_end(rd: Reading, n: usize, at: u64, count: u64, g: u64) -> Ran
    ensures { result ≡ (ended n (record { at = at; count = count; done = Ended; reading = rd }) g).ran }
{
    let t = Tokenizer {
        at,
        count,
        done: Outcome::Ended,
        reading: rd,
    };
    let p = ended(n, t, g);
    p.ran
}

// The run itself, for a text and a running tokenizer that passed the checks. Here alone the next token is asked for and stored, in one loop.
// A token is stored straight from the call that answers it: a Pending for each would copy the whole token several times.
// The tokenizer is its reading and two numbers there: as a whole, its `done` would be copied and asked again for each token.
// A loop: a call goes on where the last one ended.
fn store_on(
    text: &[u8],
    shift: u64,
    limit: u64,
    records: &mut [u64],
    g: Group,
    rd: Reading,
    from: u64,
    counted: u64,
) -> Ran
    requires { (checks text.now shift ≡ (Ok tt)) × (boundary text.now from ≡ true) }
    ensures { (result ≡ ran_of text.now shift limit (length records.old / size_of g) (running rd from counted)) × (records.new ≡ over (groups g (whole_run text.now shift limit (length records.old / size_of g) (running rd from counted)).tokens) records.old) }
{
    let size = group_size(g);
    let room = records.len() / size;
    let mut n: usize = 0;
    let mut at = from;
    let mut count = counted;
    loop {
        let x = tok::next::next_unshifted(text, rd, at as usize);
        let more = x.advances;
        if exceeds(limit, count, more) {
            return over_limit(rd, n, shift, at, count);
        }
        let to = x.at;
        let total = count + more;
        let what = x.what;
        match what {
            What::Got(token) => {
                if room <= n {
                    return full(rd, n, shift, token.start, at, count);
                }
                put_group(records, size * n, g, shift_token(shift, token));
                n += 1;
                at = to;
                count = total;
            }
            What::Error(r) => {
                return lost(rd, n, shift, r, to, total);
            }
            What::End => {
                return at_end(rd, n, to, total, x.gap_depth);
            }
        }
    }
}

// The same from any tokenizer: one that has ended or was refused stores nothing.
fn store_all(
    text: &[u8],
    shift: u64,
    limit: u64,
    records: &mut [u64],
    g: Group,
    from: Tokenizer,
) -> Ran
    requires { (checks text.now shift ≡ (Ok tt)) × (boundary text.now from.at ≡ true) }
    ensures { (result ≡ ran_of text.now shift limit (length records.old / size_of g) from) × (records.new ≡ over (groups g (whole_run text.now shift limit (length records.old / size_of g) from).tokens) records.old) }
{
    let count = from.count;
    let done = from.done;
    match done {
        Outcome::Running => {
            let rd = from.reading;
            store_on(text, shift, limit, records, g, rd, from.at, count)
        }
        Outcome::Ended => {
            let p = halted(0, Outcome::Ended, count, from);
            p.ran
        }
        Outcome::Refused(r) => {
            let p = halted(0, Outcome::Refused(r), count, from);
            p.ran
        }
    }
}

// A whole run for callers that cannot lend records: each is a group of numbers, and numbers beyond the count's groups are as they were.
fn run_groups(
    text: &[u8],
    shift: u64,
    limit: u64,
    records: &mut [u64],
    g: Group,
    from: Tokenizer,
) -> Ran
    ensures { (result ≡ ran_of text.now shift limit (length records.old / size_of g) from) × (records.new ≡ over (groups g (whole_run text.now shift limit (length records.old / size_of g) from).tokens) records.old) }
{
    match record::checks(text, shift) {
        Ok(()) => {
            let at = from.at;
            if utf8::is_boundary(text, at as usize) {
                return store_all(text, shift, limit, records, g, from);
            }
            let off = Outcome::Refused(Refusal {
                code: Code::BadRecord,
                place: 0,
            });
            let p = halted(0, off, from.count, from);
            p.ran
        }
        Err(r) => {
            let p = halted(0, Outcome::Refused(r), 0, from);
            p.ran
        }
    }
}

// Two names over one body, since the C functions are two.
// A whole run into groups of five numbers: 01's kind, start, end, payload start, payload end.
pub fn run_numbers(text: &[u8], shift: u64, limit: u64, records: &mut [u64], from: Tokenizer) -> Ran
    ensures { (result ≡ ran_of text.now shift limit (length records.old / group_size) from) × (records.new ≡ over (numbers_all (whole_run text.now shift limit (length records.old / group_size) from).tokens) records.old) }
{
    run_groups(text, shift, limit, records, Group::Five, from)
}

// A whole run into groups of nine numbers: the five, and what the run tells besides.
pub fn read_numbers(
    text: &[u8],
    shift: u64,
    limit: u64,
    records: &mut [u64],
    from: Tokenizer,
) -> Ran
    ensures { (result ≡ ran_of text.now shift limit (length records.old / size_of Nine) from) × (records.new ≡ over (groups Nine (whole_run text.now shift limit (length records.old / size_of Nine) from).tokens) records.old) }
{
    run_groups(text, shift, limit, records, Group::Nine, from)
}
