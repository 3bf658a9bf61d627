// What the command `list` says, as bytes for standard output and, for people, for standard error: all that a program decides. The program
// reads, calls this, and writes.
#![tactic(auto)]

ghost use Rattle.std.specs.Prelude.{◌≡◌, ◌+◌, ◌*◌, ◌≤◌, ◌<◌, drop, length, ltb};
ghost use Rattle.record.specs.Numbers.{code_number};
ghost use Rattle.record.specs.Records.{over};
ghost use Rattle.text.specs.Lay.{lay, lay_all};
ghost use Rattle.reading.specs.Answers.{start_in};
ghost use Rattle.run.specs.Checked.{ran_of};
ghost use Rattle.run.specs.Numbers.{groups, size_of};
ghost use Rattle.commands.specs.Lists.{Left, final_line, header_lines, highest, limit_lines, number_line, number_lines, people_lines, ran_line, refused_lines, room};
ghost use Rattle.commands.specs.Parts.{chunk_lines, held_lines, last_part, list_more, list_part, list_part_err, only_in, part_lines, run_last, run_tokens};

use reading::Outcome;
use record::{Code, Reading, Refusal};
use run::{Group, Ran};

// 01: "reads standard input up to 32,768 bytes"
pub const TEXT_LIMIT: usize = 32768;

// The highest work limit.
pub const HIGHEST: u64 = 18446744073709551615;

// How far the bytes for the two outputs came, and whether a part follows: a listing is said in parts.
#[derive(Clone, Copy)]
pub struct Said {
    pub out: Option<usize>,
    pub err: Option<usize>,
    // a field of its own: `list` and `files::unpack` promise `result.more`, whatever came
    pub more: bool,
}

// So many records stand in a part of a listing.
pub const CHUNK: usize = 8192;

// A function, since its clause names code_number, and a From<Code> could stand only in `record`.
pub fn number_of(code: Code) -> u64
    ensures { result ≡ code_number code }
{
    record::code_number(code) as u64
}

// Room for the records of every text, of either size: a token takes at least one byte.
fn blank() -> [u64; 294912]
    ensures { 294912 ≡ length result }
{
    [0; 294912]
}

// The line of the record whose numbers stand from p on: of five 01's, of nine with the depths.
fn record_onto(
    out: &mut [u8],
    from: Option<usize>,
    records: &[u64],
    group: Group,
    p: usize,
) -> Option<usize>
    requires { p + size_of group ≤ length records.now }
    ensures { (result ≡ (lay out.old from (number_line group (drop p records.now))).to) × (out.new ≡ (lay out.old from (number_line group (drop p records.now))).held) }
{
    match group {
        Group::Five => text::token_line(out, from, records[p], records[p + 1], records[p + 2]),
        Group::Nine => text::depth_line(
            out,
            from,
            records[p],
            records[p + 1],
            records[p + 2],
            records[p + 5],
            records[p + 6],
        ),
    }
}

// The lines of count records, each a group of numbers.
fn records_onto(
    out: &mut [u8],
    from: Option<usize>,
    records: &[u64],
    group: Group,
    count: usize,
) -> Option<usize>
    requires { size_of group * count ≤ length records.now }
    ensures { (result ≡ (lay_all out.old from (number_lines group count records.now)).to) × (out.new ≡ (lay_all out.old from (number_lines group count records.now)).held) }
{
    let size = run::group_size(group);
    let mut came = from;
    for i in 0..count {
        came = record_onto(out, came, records, group, size * i);
    }
    came
}

// The lines of a part's records, of count.
fn chunk_onto(
    out: &mut [u8],
    from: Option<usize>,
    records: &[u64],
    group: Group,
    count: usize,
    part: usize,
) -> Option<usize>
    requires { size_of group * count ≤ length records.now }
    ensures { (result ≡ (lay_all out.old from (chunk_lines group part count records.now)).to) × (out.new ≡ (lay_all out.old from (chunk_lines group part count records.now)).held) }
{
    if count / CHUNK < part {
        return from;
    }
    let first = CHUNK * part;
    let left = count - first;
    let start = run::group_size(group) * first;
    if CHUNK < left {
        return records_onto(out, from, &records[start..], group, CHUNK);
    }
    records_onto(out, from, &records[start..], group, left)
}

// The same for numbers that a caller has: no lines where there are fewer than the records take.
pub fn part_onto(
    out: &mut [u8],
    from: Option<usize>,
    records: &[u64],
    group: Group,
    count: usize,
    part: usize,
) -> Option<usize>
    ensures { (result ≡ (lay_all out.old from (held_lines group part count records.now)).to) × (out.new ≡ (lay_all out.old from (held_lines group part count records.now)).held) }
{
    if records.len() / run::group_size(group) < count {
        return from;
    }
    chunk_onto(out, from, records, group, count, part)
}

// The last line of a listing that reached the end.
fn final_onto(
    out: &mut [u8],
    from: Option<usize>,
    group: Group,
    advances: u64,
    depth: u64,
) -> Option<usize>
    ensures { (result ≡ (lay out.old from (final_line group advances depth)).to) × (out.new ≡ (lay out.old from (final_line group advances depth)).held) }
{
    match group {
        Group::Five => text::end_line(out, from, advances),
        Group::Nine => text::end_depth_line(out, from, advances, depth),
    }
}

// The last line of a listing.
fn last_onto(out: &mut [u8], from: Option<usize>, group: Group, ran: Ran) -> Option<usize>
    ensures { (result ≡ (lay out.old from (ran_line group ran)).to) × (out.new ≡ (lay out.old from (ran_line group ran)).held) }
{
    let how = ran.how;
    match how {
        Outcome::Refused(r) => {
            let code = r.code;
            text::error_line(out, from, number_of(code), r.place, ran.advances)
        }
        Outcome::Ended => final_onto(out, from, group, ran.advances, ran.last_depth),
        Outcome::Running => final_onto(out, from, group, ran.advances, ran.last_depth),
    }
}

// For people: where a text is refused, and why.
pub fn refused_onto(
    err: &mut [u8],
    from: Option<usize>,
    name: &[u8],
    text: &[u8],
    r: Refusal,
) -> Option<usize>
    ensures { (result ≡ (lay_all err.old from (refused_lines name.now text.now r)).to) × (err.new ≡ (lay_all err.old from (refused_lines name.now text.now r)).held) }
{
    let code = r.code;
    let at = place::in_beginning(text, r.place);
    let named = text::put(err, from, name);
    text::people_line(err, named, at.line + 1, at.column + 1, number_of(code))
}

fn people_onto(
    err: &mut [u8],
    from: Option<usize>,
    name: &[u8],
    text: &[u8],
    how: Outcome,
) -> Option<usize>
    ensures { (result ≡ (lay_all err.old from (people_lines name.now text.now how)).to) × (err.new ≡ (lay_all err.old from (people_lines name.now text.now how)).held) }
{
    match how {
        Outcome::Refused(r) => refused_onto(err, from, name, text, r),
        Outcome::Ended => from,
        Outcome::Running => from,
    }
}

// For people: a file is longer than the limit.
pub fn limit_onto(err: &mut [u8], from: Option<usize>, name: &[u8], limit: u64) -> Option<usize>
    ensures { (result ≡ (lay_all err.old from (limit_lines name.now limit)).to) × (err.new ≡ (lay_all err.old from (limit_lines name.now limit)).held) }
{
    let named = text::put(err, from, name);
    text::limit_line(err, named, number_of(Code::TooLong), limit)
}

// The line that tells whose listing follows, where several files are listed.
pub fn header_onto(out: &mut [u8], from: Option<usize>, headed: bool, name: &[u8]) -> Option<usize>
    ensures { (result ≡ (lay_all out.old from (header_lines headed name.now)).to) × (out.new ≡ (lay_all out.old from (header_lines headed name.now)).held) }
{
    if headed {
        let named = text::put(out, from, name);
        return text::header_line(out, named);
    }
    from
}

// A text's records in a reading, as groups of numbers; those of five are copied from a local list, as they were before there were others.
fn records_of(text: &[u8], rd: Reading, records: &mut [u64], group: Group) -> Ran
    requires { 294912 ≡ length records.old }
    ensures { (result ≡ ran_of text.now 0 highest room (start_in rd)) × (records.new ≡ over (groups group (run_tokens rd text.now)) records.old) }
{
    match group {
        Group::Five => lent::run_listed(text, 0, HIGHEST, records, tok::start_in(rd)),
        Group::Nine => run::read_numbers(text, 0, HIGHEST, records, tok::start_in(rd)),
    }
}

// A part of a text's listing, for a text that is not too long.
fn run_onto(
    part: usize,
    rd: Reading,
    group: Group,
    out: &mut [u8],
    from: Option<usize>,
    err: &mut [u8],
    name: &[u8],
    text: &[u8],
) -> Said
    ensures { Left (lay_all out.old from (part_lines group part (run_tokens rd text.now) (run_last rd group text.now))) (lay_all err.old (Some 0) (only_in (last_part (run_tokens rd text.now)) part (people_lines name.now text.now (ran_of text.now 0 highest room (start_in rd)).how))) result.out out.new result.err err.new × (result.more ≡ ltb part (last_part (run_tokens rd text.now))) }
{
    let mut records = blank();
    let ran = records_of(text, rd, &mut records, group);
    let how = ran.how;
    let last = ran.stored / CHUNK;
    let lines = chunk_onto(out, from, &records, group, ran.stored, part);
    if part == last {
        let end = last_onto(out, lines, group, ran);
        let people = people_onto(err, Some(0), name, text, how);
        return Said {
            out: end,
            err: people,
            more: false,
        };
    }
    Said {
        out: lines,
        err: Some(0),
        more: part < last,
    }
}

// The command `list`: a part of a text's listing in a reading, under its name where several are listed; of five numbers, in the old reading 01's,
// of nine with the depths.
pub fn list(
    part: usize,
    rd: Reading,
    group: Group,
    headed: bool,
    name: &[u8],
    text: &[u8],
    out: &mut [u8],
    err: &mut [u8],
) -> Said
    ensures { Left (lay_all out.old (Some 0) (list_part rd group part headed name.now text.now)) (lay_all err.old (Some 0) (list_part_err rd part name.now text.now)) result.out out.new result.err err.new × (result.more ≡ list_more rd part text.now) }
{
    let head = header_onto(out, Some(0), headed & (part == 0), name);
    if TEXT_LIMIT < text.len() {
        if part == 0 {
            let line = text::error_line(out, head, number_of(Code::TooLong), 0, 0);
            let people = limit_onto(err, Some(0), name, TEXT_LIMIT as u64);
            return Said {
                out: line,
                err: people,
                more: false,
            };
        }
        return Said {
            out: head,
            err: Some(0),
            more: false,
        };
    }
    run_onto(part, rd, group, out, head, err, name, text)
}
