// What the commands `pack` and `unpack` say, as bytes for standard output and, for people, for standard error.
#![tactic(auto)]

ghost use Rattle.std.specs.Prelude.{◌≡◌, ◌*◌, ◌≤◌, length, take, ltb, false};
ghost use Rattle.run.specs.declared.Group.TheVariants.{Five};
ghost use Rattle.ltk.specs.Ltk.{entries_in, read_answer, read_tokens};
ghost use Rattle.text.specs.Lay.{lay_all};
ghost use Rattle.commands.specs.Lists.{Left, room};
ghost use Rattle.commands.specs.Parts.{last_part, only_in, part_lines};
ghost use Rattle.files.specs.Files.{file_last, file_lines, pack_err, pack_out, packed_err, packed_out, read_err, unpack_more, unpack_part, unpack_part_err};

use commands::Said;
use reading::Outcome;
use record::{Code, Refusal};
use run::Group;

// For people: where an LTK file is refused, or a record that is to be written, and why.
fn file_onto(err: &mut [u8], from: Option<usize>, name: &[u8], r: Refusal) -> Option<usize>
    ensures { (result ≡ (lay_all err.old from (file_lines name.now r)).to) × (err.new ≡ (lay_all err.old from (file_lines name.now r)).held) }
{
    let code = r.code;
    let named = text::put(err, from, name);
    text::place_line(err, named, commands::number_of(code), r.place)
}

// Room for the records of every text and file.
fn blank() -> [u64; 163840]
    ensures { 163840 ≡ length result }
{
    [0; 163840]
}

// The LTK file of count records, each a group of five numbers.
fn write_onto(out: &mut [u8], err: &mut [u8], name: &[u8], records: &[u64], count: usize) -> Said
    requires { 5 * count ≤ length records.now }
    ensures { Left (packed_out (entries_in (take (5 * count) records.now)) out.old) (packed_err (entries_in (take (5 * count) records.now)) (length out.old) name.now err.old) result.out out.new result.err err.new × (result.more ≡ false) }
{
    let n = 5 * count;
    match ltk::write_numbers(&records[..n], out) {
        Ok(size) => Said {
            out: Some(size),
            err: Some(0),
            more: false,
        },
        Err(r) => {
            let people = file_onto(err, Some(0), name, r);
            Said {
                out: Some(0),
                err: people,
                more: false,
            }
        }
    }
}

// The command `pack`: a text's LTK file; nothing where the text is refused.
pub fn pack(name: &[u8], text: &[u8], out: &mut [u8], err: &mut [u8]) -> Said
    ensures { Left (pack_out text.now out.old) (pack_err name.now text.now (length out.old) err.old) result.out out.new result.err err.new × (result.more ≡ false) }
{
    if commands::TEXT_LIMIT < text.len() {
        let people = commands::limit_onto(err, Some(0), name, commands::TEXT_LIMIT as u64);
        return Said {
            out: Some(0),
            err: people,
            more: false,
        };
    }
    let mut records = blank();
    let ran = lent::run_listed(text, 0, commands::HIGHEST, &mut records, tok::start());
    let how = ran.how;
    match how {
        Outcome::Refused(r) => {
            let people = commands::refused_onto(err, Some(0), name, text, r);
            Said {
                out: Some(0),
                err: people,
                more: false,
            }
        }
        Outcome::Ended => write_onto(out, err, name, &records, ran.stored),
        Outcome::Running => write_onto(out, err, name, &records, ran.stored),
    }
}

// The longest file that `unpack` takes: of as many records as `pack` can write.
pub const FILE_LIMIT: usize = 294921;

// A part of an LTK file's listing, for a file that is not too long.
fn read_onto(
    part: usize,
    out: &mut [u8],
    from: Option<usize>,
    err: &mut [u8],
    name: &[u8],
    file: &[u8],
) -> Said
    ensures { Left (lay_all out.old from (part_lines Five part (read_tokens file.now room) (file_last (read_answer file.now room)))) (lay_all err.old (Some 0) (only_in (last_part (read_tokens file.now room)) part (read_err name.now (read_answer file.now room)))) result.out out.new result.err err.new × (result.more ≡ ltb part (last_part (read_tokens file.now room))) }
{
    let mut records = blank();
    match lent::read_listed(file, &mut records) {
        Ok(n) => {
            let last = n / commands::CHUNK;
            let lines = commands::part_onto(out, from, &records, Group::Five, n, part);
            if part == last {
                let end = text::records_line(out, lines, n as u64);
                return Said {
                    out: end,
                    err: Some(0),
                    more: false,
                };
            }
            Said {
                out: lines,
                err: Some(0),
                more: part < last,
            }
        }
        Err(r) => {
            if part == 0 {
                let code = r.code;
                let end = text::refusal_line(out, from, commands::number_of(code), r.place);
                let people = file_onto(err, Some(0), name, r);
                return Said {
                    out: end,
                    err: people,
                    more: false,
                };
            }
            Said {
                out: from,
                err: Some(0),
                more: false,
            }
        }
    }
}

// The command `unpack`: a part of an LTK file's listing, under its name where several are listed.
pub fn unpack(
    part: usize,
    headed: bool,
    name: &[u8],
    file: &[u8],
    out: &mut [u8],
    err: &mut [u8],
) -> Said
    ensures { Left (lay_all out.old (Some 0) (unpack_part part headed name.now file.now)) (lay_all err.old (Some 0) (unpack_part_err part name.now file.now)) result.out out.new result.err err.new × (result.more ≡ unpack_more part file.now) }
{
    let head = commands::header_onto(out, Some(0), headed & (part == 0), name);
    if FILE_LIMIT < file.len() {
        if part == 0 {
            let line = text::refusal_line(out, head, commands::number_of(Code::TooLong), 0);
            let people = commands::limit_onto(err, Some(0), name, FILE_LIMIT as u64);
            return Said {
                out: line,
                err: people,
                more: false,
            };
        }
        return Said {
            out: head,
            err: Some(0),
            more: false,
        };
    }
    read_onto(part, out, head, err, name, file)
}
