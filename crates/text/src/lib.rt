// What the programs say, as bytes in a lent buffer: numbers, names, lines. Nothing here knows of files.
#![tactic(auto)]

mod names;

ghost use Rattle.std.specs.Prelude.{◌≡◌, [], ◌+◌, ◌≤◌, get_or, length, map};
ghost use Rattle.std.proofs.lemmas.List.Edits.{sets};
ghost use Rattle.text.specs.Digits.{digits, width};
ghost use Rattle.text.specs.Names.{code_name, kind_name};
ghost use Rattle.text.specs.Lay.{lay};
ghost use Rattle.text.specs.Pieces.{all_bytes, piece_bytes, spaced};
ghost use Rattle.text.specs.Lines.{depth_line, end_depth_line, end_line, error_line, header_line, limit_line, people_line, place_line, records_line, refusal_line, token_line};

use names::{
    ADVANCES, AT, CLOSE, CODE_NAMES, COLON, COLON_SPACE, DEPTH, END_ADVANCES, END_RECORDS, ERROR,
    KIND_NAMES, LIMIT, NEWLINE, PHRASES, SPACE,
};

// The bytes of words from a place on, for which there is room. A loop, and not inlined: `copy_from_slice`, and the loop where it is inlined, call
// memmove, which no program had to bring for the archive.
#[inline(never)]
fn words_in(out: &mut [u8], at: usize, words: &[u8]) -> usize
    requires { at + length words.now ≤ length out.old }
    ensures { (result ≡ at + length words.now) × (out.new ≡ sets out.old at words.now) }
{
    for (i, word) in words.iter().enumerate() {
        out[at + i] = *word;
    }
    at + words.len()
}

// Every number has at most so many digits.
const MOST_DIGITS: usize = 20;

// How many digits a number has.
pub fn width(n: u64) -> usize
    ensures { result ≡ width n }
{
    let mut m = n;
    for w in 1..MOST_DIGITS {
        if m < 10 {
            return w;
        }
        m /= 10;
    }
    MOST_DIGITS
}

// A number's digits from a place on, for which there is room.
fn number_in(out: &mut [u8], at: usize, n: u64) -> usize
    requires { at + length (digits n) ≤ length out.old }
    ensures { (result ≡ at + length (digits n)) × (out.new ≡ sets out.old at (digits n)) }
{
    let end = at + width(n);
    let mut m = n;
    for i in (at..end).rev() {
        out[i] = b'0' + (m % 10) as u8;
        m /= 10;
    }
    end
}

// Bytes are put at a place, if they fit.
fn put_at(out: &mut [u8], at: usize, words: &[u8]) -> Option<usize>
    ensures { (result ≡ (lay out.old (Some at) words.now).to)
        × (out.new ≡ (lay out.old (Some at) words.now).held) }
{
    if out.len() < at {
        return None;
    }
    if out.len() - at < words.len() {
        return None;
    }
    Some(words_in(out, at, words))
}

// Bytes are put where others came to, if they fit, and how far these come; after what did not fit nothing is put any more: None.
pub fn put(out: &mut [u8], from: Option<usize>, words: &[u8]) -> Option<usize>
    ensures { (result ≡ (lay out.old from words.now).to) × (out.new ≡ (lay out.old from words.now).held) }
{
    put_at(out, from?, words)
}

// A name by its number, for which there is room; nothing for a number that none has.
fn name_in(out: &mut [u8], at: usize, names: &[&str], i: usize) -> usize
    requires { at + length (get_or (map (λ x. x.now) names.now) i []) ≤ length out.old }
    ensures { let name = get_or (map (λ x. x.now) names.now) i [] in (result ≡ at + length name) × (out.new ≡ sets out.old at name) }
{
    match names.get(i) {
        Some(name) => words_in(out, at, name.as_bytes()),
        None => at,
    }
}

// A space and a number's digits, for which there is room.
fn spaced_in(out: &mut [u8], at: usize, n: u64) -> usize
    requires { at + 29 ≤ length out.old }
    ensures { (result ≡ at + length (spaced n)) × (out.new ≡ sets out.old at (spaced n)) }
{
    let to = name_in(out, at, &PHRASES, SPACE);
    number_in(out, to, n)
}

// What a line is made of. A phrase, a kind and a code are told by their numbers, as `piece_bytes`, the lines of specs/ and the clauses of their
// functions have them.
#[derive(Clone, Copy)]
pub enum Piece {
    Phrase(usize),
    Number(u64),
    Spaced(u64),
    Kind(u64),
    Code(u64),
}

fn piece_in(out: &mut [u8], at: usize, p: Piece) -> usize
    requires { at + 29 ≤ length out.old }
    ensures { (result ≡ at + length (piece_bytes p)) × (out.new ≡ sets out.old at (piece_bytes p)) }
{
    match p {
        Piece::Phrase(i) => name_in(out, at, &PHRASES, i),
        Piece::Number(n) => number_in(out, at, n),
        Piece::Spaced(n) => spaced_in(out, at, n),
        Piece::Kind(n) => name_in(out, at, &KIND_NAMES, n as usize),
        Piece::Code(n) => name_in(out, at, &CODE_NAMES, n as usize),
    }
}

// A line of at most eight pieces is put, if it fits.
fn compose(out: &mut [u8], from: Option<usize>, pieces: &[Piece]) -> Option<usize>
    requires { length pieces.now ≤ 8 }
    ensures { (result ≡ (lay out.old from (all_bytes pieces.now)).to)
        × (out.new ≡ (lay out.old from (all_bytes pieces.now)).held) }
{
    let mut buffer = [0u8; 256];
    let mut n: usize = 0;
    for p in pieces {
        n = piece_in(&mut buffer, n, *p);
    }
    put(out, from, &buffer[..n])
}

// A token's line, as in the listing: its span and its kind.
pub fn token_line(
    out: &mut [u8],
    from: Option<usize>,
    kind: u64,
    start: u64,
    end: u64,
) -> Option<usize>
    ensures { (result ≡ (lay out.old from (token_line kind start end)).to) × (out.new ≡ (lay out.old from (token_line kind start end)).held) }
{
    compose(
        out,
        from,
        &[
            Piece::Number(start),
            Piece::Phrase(SPACE),
            Piece::Number(end),
            Piece::Phrase(SPACE),
            Piece::Kind(kind),
            Piece::Phrase(NEWLINE),
        ],
    )
}

// The same with two depths: of the comments in the gap before the token, and in its code.
pub fn depth_line(
    out: &mut [u8],
    from: Option<usize>,
    kind: u64,
    start: u64,
    end: u64,
    gap: u64,
    code: u64,
) -> Option<usize>
    ensures { (result ≡ (lay out.old from (depth_line kind start end gap code)).to) × (out.new ≡ (lay out.old from (depth_line kind start end gap code)).held) }
{
    compose(
        out,
        from,
        &[
            Piece::Number(start),
            Piece::Spaced(end),
            Piece::Phrase(SPACE),
            Piece::Kind(kind),
            Piece::Spaced(gap),
            Piece::Spaced(code),
            Piece::Phrase(NEWLINE),
        ],
    )
}

// The last line of a listing that reached the end.
pub fn end_line(out: &mut [u8], from: Option<usize>, advances: u64) -> Option<usize>
    ensures { (result ≡ (lay out.old from (end_line advances)).to) × (out.new ≡ (lay out.old from (end_line advances)).held) }
{
    compose(
        out,
        from,
        &[
            Piece::Phrase(END_ADVANCES),
            Piece::Number(advances),
            Piece::Phrase(NEWLINE),
        ],
    )
}

// The same with the depth of the last gap's comments.
pub fn end_depth_line(
    out: &mut [u8],
    from: Option<usize>,
    advances: u64,
    depth: u64,
) -> Option<usize>
    ensures { (result ≡ (lay out.old from (end_depth_line advances depth)).to) × (out.new ≡ (lay out.old from (end_depth_line advances depth)).held) }
{
    compose(
        out,
        from,
        &[
            Piece::Phrase(END_ADVANCES),
            Piece::Number(advances),
            Piece::Phrase(DEPTH),
            Piece::Number(depth),
            Piece::Phrase(NEWLINE),
        ],
    )
}

// The last line of a listing that was refused.
pub fn error_line(
    out: &mut [u8],
    from: Option<usize>,
    code: u64,
    place: u64,
    advances: u64,
) -> Option<usize>
    ensures { (result ≡ (lay out.old from (error_line code place advances)).to) × (out.new ≡ (lay out.old from (error_line code place advances)).held) }
{
    compose(
        out,
        from,
        &[
            Piece::Phrase(ERROR),
            Piece::Code(code),
            Piece::Phrase(AT),
            Piece::Number(place),
            Piece::Phrase(ADVANCES),
            Piece::Number(advances),
            Piece::Phrase(NEWLINE),
        ],
    )
}

// The last line of an LTK file's listing that was refused.
pub fn refusal_line(out: &mut [u8], from: Option<usize>, code: u64, place: u64) -> Option<usize>
    ensures { (result ≡ (lay out.old from (refusal_line code place)).to) × (out.new ≡ (lay out.old from (refusal_line code place)).held) }
{
    compose(
        out,
        from,
        &[
            Piece::Phrase(ERROR),
            Piece::Code(code),
            Piece::Phrase(AT),
            Piece::Number(place),
            Piece::Phrase(NEWLINE),
        ],
    )
}

// The last line of an LTK file's listing.
pub fn records_line(out: &mut [u8], from: Option<usize>, count: u64) -> Option<usize>
    ensures { (result ≡ (lay out.old from (records_line count)).to) × (out.new ≡ (lay out.old from (records_line count)).held) }
{
    compose(
        out,
        from,
        &[
            Piece::Phrase(END_RECORDS),
            Piece::Number(count),
            Piece::Phrase(NEWLINE),
        ],
    )
}

// After a file's name, where several are listed.
pub fn header_line(out: &mut [u8], from: Option<usize>) -> Option<usize>
    ensures { (result ≡ (lay out.old from header_line).to) × (out.new ≡ (lay out.old from header_line).held) }
{
    compose(out, from, &[Piece::Phrase(COLON), Piece::Phrase(NEWLINE)])
}

// For people, after a file's name: where its text is refused, and why.
pub fn people_line(
    out: &mut [u8],
    from: Option<usize>,
    line: u64,
    column: u64,
    code: u64,
) -> Option<usize>
    ensures { (result ≡ (lay out.old from (people_line line column code)).to) × (out.new ≡ (lay out.old from (people_line line column code)).held) }
{
    compose(
        out,
        from,
        &[
            Piece::Phrase(COLON),
            Piece::Number(line),
            Piece::Phrase(COLON),
            Piece::Number(column),
            Piece::Phrase(COLON_SPACE),
            Piece::Code(code),
            Piece::Phrase(NEWLINE),
        ],
    )
}

// For people, after the name of a file that is longer than the limit.
pub fn limit_line(out: &mut [u8], from: Option<usize>, code: u64, limit: u64) -> Option<usize>
    ensures { (result ≡ (lay out.old from (limit_line code limit)).to) × (out.new ≡ (lay out.old from (limit_line code limit)).held) }
{
    compose(
        out,
        from,
        &[
            Piece::Phrase(COLON_SPACE),
            Piece::Code(code),
            Piece::Phrase(LIMIT),
            Piece::Number(limit),
            Piece::Phrase(CLOSE),
        ],
    )
}

// For people, after the name of an LTK file: where it is refused, and why.
pub fn place_line(out: &mut [u8], from: Option<usize>, code: u64, place: u64) -> Option<usize>
    ensures { (result ≡ (lay out.old from (place_line code place)).to) × (out.new ≡ (lay out.old from (place_line code place)).held) }
{
    compose(
        out,
        from,
        &[
            Piece::Phrase(COLON_SPACE),
            Piece::Code(code),
            Piece::Phrase(AT),
            Piece::Number(place),
            Piece::Phrase(NEWLINE),
        ],
    )
}

// A kind's name, by its number; none for a number that no kind has.
pub fn kind_name(out: &mut [u8], from: Option<usize>, kind: u64) -> Option<usize>
    ensures { (result ≡ (lay out.old from (kind_name kind)).to) × (out.new ≡ (lay out.old from (kind_name kind)).held) }
{
    compose(out, from, &[Piece::Kind(kind)])
}

// A refusal's name, by its number; none for a number that no refusal has.
pub fn code_name(out: &mut [u8], from: Option<usize>, code: u64) -> Option<usize>
    ensures { (result ≡ (lay out.old from (code_name code)).to) × (out.new ≡ (lay out.old from (code_name code)).held) }
{
    compose(out, from, &[Piece::Code(code)])
}

// A number's digits.
pub fn number(out: &mut [u8], from: Option<usize>, n: u64) -> Option<usize>
    ensures { (result ≡ (lay out.old from (digits n)).to) × (out.new ≡ (lay out.old from (digits n)).held) }
{
    compose(out, from, &[Piece::Number(n)])
}
