// One text, call by call: what each call adds is entered on a row of its own, since a text that ends in an error adds nothing of it.
ghost use Rattle.std.specs.Prelude.{cond, false, ◌≡◌, ◌+◌, ◌<◌, ◌≤◌, ltb, get_or, length};
ghost use Rattle.record.specs.Checks.{checks};
ghost use Rattle.record.specs.Records.{refusal};
ghost use Rattle.record.specs.declared.Code.TheVariants.{WorkLimit};
ghost use Rattle.record.specs.declared.Reading.TheVariants.{Old};
ghost use Rattle.scan.specs.Depth.{deeper};
ghost use Rattle.scan.specs.Until.{left};
ghost use Rattle.reading.specs.Next.{token_or_end};
ghost use Rattle.reading.specs.declared.Outcome.TheVariants.{Ended, Refused};
ghost use Rattle.sheet.specs.Adds.{dropped_after, empty_sheet, enter, entered, failed_in, greatest, in_comments, in_tokens, in_whitespace, sheet_size, story, work_limit};
ghost use Rattle.sheet.specs.Calls.{Gapped, Going};
ghost use Rattle.sheet.specs.Laws.{Below};
ghost use Rattle.sheet.specs.Parts.{Delivers, sharp_part};
ghost use Rattle.sheet.specs.Reads.{part_of, read_of, row_of};

use crate::{Gap, Part, Read};
use reading::{Outcome, What};
use record::{Code, Reading, Refusal, Token};
use utf8::signs;

// 2^50 advances.
pub const WORK_LIMIT: u64 = 1125899906842624;

const IN_TOKENS: usize = 54;

const IN_WHITESPACE: usize = 55;

const IN_COMMENTS: usize = 56;

const DROPPED_AFTER: usize = 57;

const FAILED_IN: usize = 59;

// The number of the kind that a failed attempt delivers.
const HASH: u8 = 34;

// A number of the row with n more.
pub(crate) fn enter(row: &mut [u64], i: usize, n: u64)
    requires { (i < length row.old) × (get_or row.old i 0 + n < 18446744073709551616) }
    ensures { row.new ≡ enter i n row.old }
{
    row[i] += n;
}

// A gap's characters.
fn gap_onto(row: &mut [u64], white: u64, comment: u64)
    requires { (length row.old ≡ sheet_size) × Below 0x10000000000000 row.old × (white ≤ 0xFFFFFFFF) × (comment ≤ 0xFFFFFFFF) }
    ensures { row.new ≡ enter in_comments comment (enter in_whitespace white row.old) }
{
    enter(row, IN_WHITESPACE, white);
    enter(row, IN_COMMENTS, comment);
}

// A token of the kind with the number k.
fn token_onto(row: &mut [u64], k: usize, part: Part)
    requires { (length row.old ≡ sheet_size) × Below 0x20000000000000 row.old × (k < 54) × (part.width ≤ 0xFFFFFFFF) × (part.dropped ≤ 1) × (part.failed ≤ 1) }
    ensures { row.new ≡ enter failed_in part.failed (enter dropped_after part.dropped (enter in_tokens part.width (enter k 1 row.old))) }
{
    enter(row, k, 1);
    enter(row, IN_TOKENS, part.width);
    enter(row, DROPPED_AFTER, part.dropped);
    enter(row, FAILED_IN, part.failed);
}

// A token that a hash starts, of the kind with the number k, which ends at a place and whose call went on to another: an attempt that failed, or an attribute.
fn sharp(k: u8, end: u64, to: u64, n: u64) -> Part
    requires { 0 < n }
    ensures { result ≡ sharp_part k end to n }
{
    if k == HASH {
        return Part {
            width: 1,
            dropped: 0,
            failed: 1,
        };
    }
    if end < to {
        return Part {
            width: n - 1,
            dropped: 1,
            failed: 0,
        };
    }
    Part {
        width: n,
        dropped: 0,
        failed: 0,
    }
}

// What the token t at p adds, whose call went on to a place after n advances.
fn part(text: &[u8], p: usize, t: Token, to: u64, n: u64) -> Part
    requires { Delivers (token_or_end Old (left text.now p) p) t to n }
    ensures { result ≡ part_of text.now t }
{
    if scan::is_next(text, p, signs::HASH) {
        let kind = t.kind;
        return sharp(record::kind_number(kind), t.end, to, n);
    }
    Part {
        width: n,
        dropped: 0,
        failed: 0,
    }
}

// The call at a place would take the advances above the limit.
fn limited(at: usize, count: u64) -> Read
    ensures { result ≡ record { going = false; at = 0; advances = count; deep = 0; how = Refused (refusal WorkLimit at) } }
{
    Read {
        going: false,
        at: 0,
        advances: count,
        deep: 0,
        how: Outcome::Refused(Refusal {
            code: Code::WorkLimit,
            place: at as u64,
        }),
    }
}

// The text ends so.
fn over(advances: u64, deep: u64, how: Outcome) -> Read
    ensures { result ≡ record { going = false; at = 0; advances = advances; deep = deep; how = how } }
{
    Read {
        going: false,
        at: 0,
        advances,
        deep,
        how,
    }
}

// The greater of two depths.
pub(crate) fn greater(a: u64, b: u64) -> u64
    ensures { result ≡ deeper a b }
{
    a.max(b)
}

// A comment does not end, after n advances of its call.
fn lost(at: usize, count: u64, r: Refusal, n: u64) -> Read
    requires { (count ≤ work_limit) × (n ≤ 0xFFFFFFFF) }
    ensures { result ≡ cond (ltb work_limit (count + n)) (record { going = false; at = 0; advances = count; deep = 0; how = Refused (refusal WorkLimit at) }) (record { going = false; at = 0; advances = count + n; deep = 0; how = Refused r }) }
{
    if WORK_LIMIT < count + n {
        return limited(at, count);
    }
    over(count + n, 0, Outcome::Refused(r))
}

// The call at a place whose gap ends at p, with comments so deep.
fn after_gap(
    text: &[u8],
    row: &mut [u64],
    at: usize,
    count: u64,
    p: usize,
    white: u64,
    comment: u64,
    deep: u64,
) -> Read
    requires { Going text.now at count row.old × Gapped text.now at count p white comment deep }
    ensures { (result ≡ read_of text.now at count) × (row.new ≡ row_of text.now at count row.old) }
{
    let x = tok::next::token_or_end(text, Reading::Old, p);
    let n = x.advances;
    let to = x.at;
    let total = count + (white + comment + n);
    if WORK_LIMIT < total {
        return limited(at, count);
    }
    let what = x.what;
    match what {
        What::Got(t) => {
            let kind = t.kind;
            let adds = part(text, p, t, to, n);
            gap_onto(row, white, comment);
            token_onto(row, record::kind_number(kind) as usize, adds);
            Read {
                going: true,
                at: to as usize,
                advances: total,
                deep: greater(deep, x.code_depth),
                how: Outcome::Running,
            }
        }
        What::Error(r) => over(total, 0, Outcome::Refused(r)),
        What::End => {
            gap_onto(row, white, comment);
            over(total, deep, Outcome::Ended)
        }
    }
}

// The call at a place, after so many advances.
fn turn(text: &[u8], row: &mut [u64], at: usize, count: u64) -> Read
    requires { Going text.now at count row.old }
    ensures { (result ≡ read_of text.now at count) × (row.new ≡ row_of text.now at count row.old) }
{
    match crate::gaps::apart(text, at) {
        Err((r, m)) => lost(at, count, r, m as u64),
        Ok((p, white, comment, deep)) => after_gap(
            text,
            row,
            at,
            count,
            p,
            white as u64,
            comment as u64,
            deep as u64,
        ),
    }
}

// The whole text, on an empty row. Of one that ends in an error the row says nothing.
pub(crate) fn read_all(text: &[u8], row: &mut [u64]) -> Read
    requires { (checks text.now 0 ≡ (Ok tt)) × (row.old ≡ empty_sheet) }
    ensures { (result.how ≡ (story text.now).how)
        × (result.advances ≡ (story text.now).state.count)
        × (result.how ≡ Ended → row.new ≡ entered text.now 0 (story text.now).tokens empty_sheet)
        × Below 0x400000000 row.new
        × (length row.new ≡ sheet_size)
        × (result.advances ≤ work_limit)
        × (result.how ≡ Ended → result.deep ≡ greatest (story text.now))
        × (result.deep ≤ 0x7FFFFFFF) }
{
    let mut at: usize = 0;
    let mut count: u64 = 0;
    let mut deep: u64 = 0;
    // a loop: a turn goes on where its call ends
    loop {
        let r = turn(text, row, at, count);
        deep = greater(deep, r.deep);
        if r.going {
            at = r.at;
            count = r.advances;
        } else {
            let how = r.how;
            return over(r.advances, deep, how);
        }
    }
}
