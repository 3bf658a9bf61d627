// What the command `sheet` says, as bytes: the table of a sheet's totals.
#![tactic(auto)]

ghost use Rattle.std.specs.Prelude.{◌≡◌, true, ℕ, List, [], ◌∷◌, ◌*◌, ◌-◌, ◌<◌, ◌≤◌, get_or, length, take};
ghost use Rattle.text.specs.Lay.{lay_all};
ghost use Rattle.text.specs.Names.{code_name, kind_name};
ghost use Rattle.sheet.specs.Adds.{sheet_size, work_limit};
ghost use Rattle.sheet.specs.Sheet.{within};
ghost use Rattle.table.specs.Table.{Put, absent_kind, advance_lines, all_occur, at_right, character_lines, each, error_line, foot, indented, kind_line, line, name_columns, number_columns, plain_line, share, share_line, shown_lines, spaces, table_pieces, tenths, text_lines, token_lines, total};
ghost use Rattle.table.specs.Laws.{PutOne, reach};

// The greatest number that is summed.
const MOST: u64 = 1125899906842624;

const SPACES: [u8; 34] = [32; 34];

// How far bytes came; no number tells it where they did not fit.
fn reached(came: Option<usize>) -> u64
    ensures { result ≡ reach came }
{
    came.unwrap_or(0) as u64
}

// The spaces that are left of some columns.
fn pad(out: &mut [u8], from: Option<usize>, columns: u64, taken: u64) -> Option<usize>
    requires { columns ≤ name_columns }
    ensures { Put out.old from (spaces (columns - taken) ∷ []) result out.new }
{
    let n = columns.saturating_sub(taken) as usize;
    text::put(out, from, &SPACES[..n])
}

// A number at the right of so many columns.
fn right(out: &mut [u8], from: Option<usize>, columns: u64, n: u64) -> Option<usize>
    requires { columns ≤ name_columns }
    ensures { Put out.old from (at_right columns n) result out.new }
{
    let room = pad(out, from, columns, text::width(n) as u64);
    text::number(out, room, n)
}

// The columns after a name: spaces up to the name's last column, counted from where the line starts, and the number.
fn after_name(out: &mut [u8], start: Option<usize>, from: Option<usize>, n: u64) -> Option<usize>
    ensures { Put out.old from (spaces (name_columns - (reach from - reach start)) ∷ at_right number_columns n) result out.new }
{
    let taken = reached(from).saturating_sub(reached(start));
    let room = pad(out, from, 34, taken);
    right(out, room, 12, n)
}

// A line up to its number.
fn line_of(out: &mut [u8], from: Option<usize>, name: &[u8], n: u64) -> Option<usize>
    ensures { Put out.old from (line (name.now ∷ []) n) result out.new }
{
    let named = text::put(out, from, name);
    after_name(out, from, named, n)
}

// The same with an indent, of a name by its number.
fn line_indented<F: Fn(&mut [u8], Option<usize>, u64) -> Option<usize>>(
    out: &mut [u8],
    from: Option<usize>,
    name: F,
    number: u64,
    n: u64,
) -> Option<usize>
    ghost named: { ℕ → List ℕ }
    requires takes { (d : _) (c : _) (i : _) → F.pre name d c i }
    requires says { (d : _) (c : _) (i : _) (r : _) (e : _) → F.post name d c i r e → PutOne d.now c (named i) r e.now }
    ensures { Put out.old from (line (indented (named number)) n) result out.new }
{
    let start = text::put(out, from, b"  ");
    let told = name(out, start, number);
    after_name(out, from, told, n)
}

// A number's line.
fn plain_line(out: &mut [u8], from: Option<usize>, name: &[u8], n: u64) -> Option<usize>
    ensures { Put out.old from (plain_line (name.now ∷ []) n) result out.new }
{
    let begun = line_of(out, from, name, n);
    text::put(out, begun, b"\n")
}

// What n is of all, in tenths of a percent.
fn tenths(n: u64, all: u64) -> u64
    requires { (n ≤ work_limit) × (all ≤ 64 * work_limit) }
    ensures { result ≡ tenths n all }
{
    if all == 0 {
        return 0;
    }
    (2000 * n + all) / (2 * all)
}

// A share of so many tenths of a percent, which ends its line.
fn share_onto(out: &mut [u8], from: Option<usize>, t: u64) -> Option<usize>
    ensures { Put out.old from (share t) result out.new }
{
    let whole = right(out, from, 5, t / 10);
    let point = text::put(out, whole, b".");
    let decimal = text::number(out, point, t % 10);
    text::put(out, decimal, b"%\n")
}

// A line with a share.
fn share_line(out: &mut [u8], from: Option<usize>, name: &[u8], n: u64, all: u64) -> Option<usize>
    requires { (n ≤ work_limit) × (all ≤ 64 * work_limit) }
    ensures { Put out.old from (share_line (name.now ∷ []) n all) result out.new }
{
    let begun = line_of(out, from, name, n);
    share_onto(out, begun, tenths(n, all))
}

// The line of a kind that occurs, and of an error with a tally.
fn kind_line(out: &mut [u8], from: Option<usize>, kind: u64, n: u64, all: u64) -> Option<usize>
    requires { (n ≤ work_limit) × (all ≤ 64 * work_limit) }
    ensures { Put out.old from (kind_line all kind n) result out.new }
{
    if n == 0 {
        return from;
    }
    let begun = line_indented(out, from, text::kind_name, kind, n);
    share_onto(out, begun, tenths(n, all))
}

fn error_line(out: &mut [u8], from: Option<usize>, code: u64, n: u64) -> Option<usize>
    ensures { Put out.old from (error_line code n) result out.new }
{
    if n == 0 {
        return from;
    }
    let begun = line_indented(out, from, text::code_name, code, n);
    text::put(out, begun, b"\n")
}

// The name of a kind that never occurs.
fn absent_kind(out: &mut [u8], from: Option<usize>, kind: u64, n: u64) -> Option<usize>
    ensures { Put out.old from (absent_kind kind n) result out.new }
{
    if n == 0 {
        let apart = text::put(out, from, b" ");
        return text::kind_name(out, apart, kind);
    }
    from
}

// Whether no number is too large to be summed.
fn is_small(counts: &[u64]) -> bool
    ensures { result ≡ within work_limit counts.now }
{
    counts.iter().all(|n| *n <= MOST)
}

fn total(counts: &[u64]) -> u64
    requires { (length counts.now ≤ 54) × (within work_limit counts.now ≡ true) }
    ensures { result ≡ total counts.now }
{
    counts.iter().sum()
}

// Whether no number is 0.
fn all_occur(counts: &[u64]) -> bool
    ensures { result ≡ all_occur counts.now }
{
    counts.iter().all(|n| *n != 0)
}

// What is put for each number and its index, one after another; the first index is given.
fn each_onto<F: Fn(&mut [u8], Option<usize>, u64, u64) -> Option<usize>>(
    out: &mut [u8],
    from: Option<usize>,
    first: u64,
    counts: &[u64],
    one: F,
) -> Option<usize>
    ghost said: { ℕ → ℕ → List (List ℕ) }
    requires few { first ≤ 1 }
    requires takes { (d : _) (c : _) (i : _) (k : ℕ) → k < length counts.now → F.pre one d c i (get_or counts.now k 0) }
    requires says { (d : _) (c : _) (i : _) (n : _) (r : _) (e : _) → F.post one d c i n r e → Put d.now c (said i n) r e.now }
    ensures { Put out.old from (each said first counts.now) result out.new }
{
    let mut came = from;
    for (i, n) in counts.iter().enumerate() {
        came = one(out, came, first + i as u64, *n);
    }
    came
}

// The lines of the kinds that occur.
fn kinds_onto(out: &mut [u8], from: Option<usize>, counts: &[u64], all: u64) -> Option<usize>
    requires few { (k : ℕ) → k < length counts.now → get_or counts.now k 0 ≤ work_limit }
    requires share { all ≤ 64 * work_limit }
    ensures { Put out.old from (each (kind_line all) 0 counts.now) result out.new }
{
    each_onto(
        out,
        from,
        0,
        counts,
        |out, came, kind, n| kind_line(out, came, kind, n, all),
    )
}

// The parts of the table, one after another.
fn tokens_onto(out: &mut [u8], from: Option<usize>, counts: &[u64]) -> Option<usize>
    requires { (length counts.now ≤ 54) × (within work_limit counts.now ≡ true) }
    ensures { Put out.old from (token_lines counts.now) result out.new }
{
    let all = total(counts);
    let head = plain_line(out, from, b"tokens", all);
    kinds_onto(out, head, counts, all)
}

fn characters_onto(out: &mut [u8], from: Option<usize>, sheet: &[u64], all: u64) -> Option<usize>
    requires { (sheet_size ≤ length sheet.now) × (within work_limit (take 58 sheet.now) ≡ true) × (all ≤ 64 * work_limit) }
    ensures { Put out.old from (character_lines sheet.now all) result out.new }
{
    let head = plain_line(out, from, b"characters", all);
    let tokens = share_line(out, head, b"  in tokens", sheet[54], all);
    let white = share_line(out, tokens, b"  in whitespace", sheet[55], all);
    let comments = share_line(out, white, b"  in comments", sheet[56], all);
    share_line(out, comments, b"  dropped after attributes", sheet[57], all)
}

fn advances_onto(out: &mut [u8], from: Option<usize>, sheet: &[u64], all: u64) -> Option<usize>
    requires { sheet_size ≤ length sheet.now }
    ensures { Put out.old from (advance_lines sheet.now all) result out.new }
{
    let advances = sheet[58];
    let head = plain_line(out, from, b"advances", advances);
    let cost = plain_line(
        out,
        head,
        b"  of failed attempts",
        advances.saturating_sub(all),
    );
    plain_line(out, cost, b"failed attempts", sheet[59])
}

fn texts_onto(out: &mut [u8], from: Option<usize>, sheet: &[u64], refused: u64) -> Option<usize>
    requires { sheet_size ≤ length sheet.now }
    ensures { Put out.old from (text_lines sheet.now refused) result out.new }
{
    let taken = plain_line(out, from, b"texts taken", sheet[60]);
    let errors = each_onto(out, taken, 1, &sheet[65..94], error_line);
    plain_line(out, errors, b"texts refused", refused)
}

fn foot_onto(out: &mut [u8], from: Option<usize>, counts: &[u64]) -> Option<usize>
    ensures { Put out.old from (foot counts.now) result out.new }
{
    if all_occur(counts) {
        return from;
    }
    let head = text::put(out, from, b"kinds that never occur:");
    let names = each_onto(out, head, 0, counts, absent_kind);
    text::put(out, names, b"\n")
}

// The table of a sheet, for numbers whose sums are not too large.
fn shown(out: &mut [u8], from: Option<usize>, sheet: &[u64], refused: u64) -> Option<usize>
    requires { (sheet_size ≤ length sheet.now) × (within work_limit (take 58 sheet.now) ≡ true) }
    ensures { Put out.old from (shown_lines sheet.now refused) result out.new }
{
    let all = total(&sheet[54..58]);
    let tokens = tokens_onto(out, from, &sheet[..54]);
    let characters = characters_onto(out, tokens, sheet, all);
    let advances = advances_onto(out, characters, sheet, all);
    let texts = texts_onto(out, advances, sheet, refused);
    foot_onto(out, texts, &sheet[..54])
}

// The table of a sheet's totals and of how many files were refused; none for numbers that are no sheet.
pub fn table(out: &mut [u8], from: Option<usize>, sheet: &[u64], refused: u64) -> Option<usize>
    ensures { (result ≡ (lay_all out.old from (table_pieces sheet.now refused)).to) × (out.new ≡ (lay_all out.old from (table_pieces sheet.now refused)).held) }
{
    if sheet.len() < 96 {
        return from;
    }
    if is_small(&sheet[..58]) {
        return shown(out, from, sheet, refused);
    }
    from
}
