// What the command `sheet` makes of a file: its text is taken onto a sheet, and for people a line says why it is refused.
#![tactic(auto)]

ghost use Rattle.std.specs.Prelude.{◌≡◌};
ghost use Rattle.text.specs.Lay.{lay_all};
ghost use Rattle.commands.specs.Laws.{Is};
ghost use Rattle.filing.specs.Filed.{filed_lines, filed_refused, filed_sheet, is_refused, refusal_lines, taken_lines};

use record::Refusal;
use sheet::Taken;

// The request for it: "A file may have up to 1 MiB"
pub const FILE_LIMIT: usize = 1048576;

// Whether a file was refused, and how far the bytes for people came.
#[derive(Clone, Copy)]
pub struct Filed {
    // a field of its own: `take_file` promises `result.refused`, and a text that is taken may have a line for people too
    pub refused: bool,
    pub err: Option<usize>,
}

fn is_refused(t: Taken) -> bool
    ensures { result ≡ is_refused t }
{
    matches!(t, Taken::Refused(_))
}

// For people: why a text was not taken; what the sheet is refused for has no line and no column.
fn refusal_onto(
    err: &mut [u8],
    from: Option<usize>,
    name: &[u8],
    text: &[u8],
    r: Refusal,
) -> Option<usize>
    ensures { Is (lay_all err.old from (refusal_lines name.now text.now r)) result err.new }
{
    let code = r.code;
    let number = commands::number_of(code);
    if 12 < number {
        let named = text::put(err, from, name);
        return text::place_line(err, named, number, r.place);
    }
    commands::refused_onto(err, from, name, text, r)
}

fn taken_onto(
    err: &mut [u8],
    from: Option<usize>,
    name: &[u8],
    text: &[u8],
    t: Taken,
) -> Option<usize>
    ensures { Is (lay_all err.old from (taken_lines name.now text.now t)) result err.new }
{
    match t {
        Taken::Whole => from,
        Taken::Tallied(r) => commands::refused_onto(err, from, name, text, r),
        Taken::Refused(r) => refusal_onto(err, from, name, text, r),
    }
}

// A sheet takes a file's text; a text that is longer than the limit may be cut, and is refused.
pub fn take_file(name: &[u8], text: &[u8], sheet: &mut [u64], err: &mut [u8]) -> Filed
    ensures { (result.refused ≡ filed_refused text.now sheet.old)
        × Is (lay_all err.old (Some 0) (filed_lines name.now text.now sheet.old)) result.err err.new
        × (sheet.new ≡ filed_sheet text.now sheet.old) }
{
    if FILE_LIMIT < text.len() {
        let limit = commands::limit_onto(err, Some(0), name, FILE_LIMIT as u64);
        return Filed {
            refused: true,
            err: limit,
        };
    }
    let t = sheet::take(text, sheet);
    let people = taken_onto(err, Some(0), name, text, t);
    Filed {
        refused: is_refused(t),
        err: people,
    }
}
