// The LTK file: a list of token records as bytes.
#![tactic(auto)]

pub mod layout;

ghost use Rattle.std.specs.Prelude.{◌≡◌, ℕ, ◌+◌, ◌-◌, ◌*◌, ◌/◌, ◌<◌, ◌≤◌, map, length, get_or};
ghost use Rattle.std.proofs.lemmas.List.Edits.{sets};
ghost use Rattle.record.specs.Numbers.{kind_of};
ghost use Rattle.record.specs.Records.{over};
ghost use Rattle.ltk.specs.declared.Entry.{Entry};
ghost use Rattle.ltk.specs.Layout.{header_size, record_size, count_limit, index_limit, record_place, little, number_at};
ghost use Rattle.ltk.specs.Ltk.{bad, entry_of, kind_in, token_in, numbers_in, group_size, record_bytes, header_bytes, records_bytes, flat, judge, marked, entry_at, listed, entries_of, file_check, delivered, read_answer, read_tokens, read_numbers, record_at, bytes_for, write_answer, written_bytes, entry_in, entries_in};
ghost use Rattle.ltk.specs.Sources.{GivesBelow};

use layout::{
    COUNT_LIMIT, COUNT_PLACE, END_PLACE, HEADER_SIZE, LAST_KIND, RECORD_SIZE, START_PLACE, VERSION,
    VERSION_PLACE,
};
use record::{Code, Kind, Refusal, TEXT_LIMIT, Token};

// A record as the file has it.
#[derive(Clone, Copy)]
pub struct Entry {
    pub kind: u64,
    pub start: u64,
    pub end: u64,
}

// The byte at a place, and 0 past the end.
fn byte(s: &[u8], i: usize) -> u64
    ensures { (result ≡ get_or s.now i 0) × (result < 256) }
{
    s.get(i).copied().map_or(0, u64::from)
}

// The number of two bytes, the little end first. A byte past the end counts as 0, as `number_at` says, so `from_le_bytes` has no bytes to take.
fn number2(s: &[u8], p: usize) -> u64
    requires { p < 9223372036854775808 }
    ensures { (result ≡ number_at 2 s.now p) × (result < 65536) }
{
    let low = byte(s, p);
    let high = byte(s, p + 1);
    low + 256 * high
}

// The number of four bytes.
fn number4(s: &[u8], p: usize) -> u64
    requires { p < 4611686018427387904 }
    ensures { (result ≡ number_at 4 s.now p) × (result < count_limit) }
{
    let low = number2(s, p);
    let high = number2(s, p + 2);
    low + 65536 * high
}

// The record at an index, as the bytes have it.
fn entry_at(file: &[u8], i: usize) -> Entry
    requires { i < index_limit }
    ensures { result ≡ entry_at file.now i }
{
    let p = HEADER_SIZE + RECORD_SIZE * i;
    Entry {
        kind: byte(file, p),
        start: number4(file, p + START_PLACE),
        end: number4(file, p + END_PLACE),
    }
}

// What the file has of a token.
impl From<Token> for Entry {
    ghost use Rattle.ltk.specs.Ltk.{entry_of};

    ghost from_gives = { λ t e. e ≡ entry_of t };

    fn from(t: Token) -> Entry {
        Entry {
            kind: u64::from(record::kind_number(t.kind)),
            start: t.start,
            end: t.end,
        }
    }
}

// The kind that has a number; no other number is looked for.
fn kind_in(n: u64) -> Kind
    ensures { result ≡ kind_in (kind_of n) }
{
    if LAST_KIND < n {
        return Kind::Enum;
    }
    match record::kind_of(n as u8) {
        Some(k) => k,
        None => Kind::Enum,
    }
}

// The token that a record of a file gives: its payload places are its start.
impl From<Entry> for Token {
    ghost use Rattle.ltk.specs.Ltk.{token_in};

    ghost from_gives = { λ e t. t ≡ token_in e };

    fn from(e: Entry) -> Token {
        record::token_of(kind_in(e.kind), e.start, e.end, e.start, e.start)
    }
}

// Whether a record may not follow one that ends at `before`.
fn is_bad(before: u64, e: Entry) -> bool
    ensures { result ≡ bad before e }
{
    (LAST_KIND < e.kind) | (e.end <= e.start) | (e.start < before) | ((TEXT_LIMIT as u64) < e.end)
}

// The tests of the records at the indices below a count: how many there are, or why they are refused.
fn test<F: Fn(usize) -> Entry>(count: usize, get: &F) -> Result<usize, Refusal>
    requires few { count < count_limit }
    requires there { (i : ℕ) → i < count → F.pre get.now i }
    ensures all { (n : ℕ) → result ≡ Ok n → n ≡ count }
    ensures judged { (f : ℕ → Entry) → GivesBelow count (F.post get.now) f → result ≡ judge (listed f 0 count) }
{
    let mut before = 0;
    for i in 0..count {
        let e = get(i);
        if is_bad(before, e) {
            return Err(Refusal {
                code: Code::BadRecord,
                place: (HEADER_SIZE + RECORD_SIZE * i) as u64,
            });
        }
        before = e.end;
    }
    Ok(count)
}

// Whether a file begins with the mark; a mark that is cut is none.
fn is_marked(file: &[u8]) -> bool
    ensures { result ≡ marked file.now }
{
    file.starts_with(b"LTK")
}

// Whether a file is well formed: how many records it has, or why it is refused.
pub fn check(file: &[u8]) -> Result<usize, Refusal>
    ensures { result ≡ file_check file.now }
{
    if !is_marked(file) {
        return Err(Refusal {
            code: Code::BadMark,
            place: 0,
        });
    }
    if file.len() < HEADER_SIZE {
        return Err(Refusal {
            code: Code::BadLength,
            place: HEADER_SIZE as u64,
        });
    }
    if number2(file, VERSION_PLACE) != VERSION {
        return Err(Refusal {
            code: Code::UnknownVersion,
            place: VERSION_PLACE as u64,
        });
    }
    let count = number4(file, COUNT_PLACE) as usize;
    if file.len() != HEADER_SIZE + RECORD_SIZE * count {
        return Err(Refusal {
            code: Code::BadLength,
            place: HEADER_SIZE as u64,
        });
    }
    test(count, &|i| entry_at(file, i))
}

// What the reader answers where the list has room for so many records.
pub fn read_answer(file: &[u8], room: usize) -> Result<usize, Refusal>
    ensures { result ≡ read_answer file.now room }
{
    let n = check(file)?;
    if room < n {
        return Err(Refusal {
            code: Code::NoRoom,
            place: 0,
        });
    }
    Ok(n)
}

// One record of a file.
pub fn record_at(file: &[u8], i: usize) -> Option<Token>
    ensures { result ≡ record_at file.now i }
{
    let count = number4(file, COUNT_PLACE) as usize;
    if count <= i {
        return None;
    }
    if file.len() < HEADER_SIZE + RECORD_SIZE * (i + 1) {
        return None;
    }
    let e = entry_at(file, i);
    let n = e.kind;
    if LAST_KIND < n {
        return None;
    }
    Some(Token::from(e))
}

// How many records an answer delivers.
fn count_of(a: Result<usize, Refusal>) -> usize
    ensures { result ≡ delivered a }
{
    a.unwrap_or(0)
}

// A number as k bytes, the little end first.
fn put(out: &mut [u8], p: usize, k: usize, n: u64)
    requires size { k ≤ 8 }
    requires room { p + k ≤ length out.old }
    ensures { out.new ≡ sets out.old p (little k n) }
{
    out[p..p + k].copy_from_slice(&n.to_le_bytes()[..k]);
}

// One record's bytes.
fn put_record(out: &mut [u8], i: usize, e: Entry)
    requires { record_place (i + 1) ≤ length out.old }
    ensures { out.new ≡ sets out.old (record_place i) (record_bytes e) }
{
    let p = HEADER_SIZE + RECORD_SIZE * i;
    put(out, p, 1, e.kind);
    put(out, p + START_PLACE, 4, e.start);
    put(out, p + END_PLACE, 4, e.end);
}

// The file's first bytes.
fn put_header(out: &mut [u8], count: usize)
    requires { header_size ≤ length out.old }
    ensures { out.new ≡ sets out.old 0 (header_bytes count) }
{
    out[..VERSION_PLACE].copy_from_slice(b"LTK");
    put(out, VERSION_PLACE, 2, VERSION);
    put(out, COUNT_PLACE, 4, count as u64);
}

// The bytes of the records at the indices below a count.
fn put_records<F: Fn(usize) -> Entry>(count: usize, get: &F, out: &mut [u8])
    requires there { (i : ℕ) → i < count → F.pre get.now i }
    requires room { record_size * count ≤ length out.old - header_size }
    ensures { (f : ℕ → Entry) → GivesBelow count (F.post get.now) f → out.new ≡ sets out.old header_size (records_bytes (listed f 0 count)) }
{
    for i in 0..count {
        put_record(out, i, get(i));
    }
}

// What the writer answers for a buffer of so many bytes, where the tests gave an answer.
fn bytes_for(a: Result<usize, Refusal>, room: usize) -> Result<usize, Refusal>
    requires { delivered a < count_limit }
    ensures { result ≡ bytes_for room a }
{
    let size = HEADER_SIZE + RECORD_SIZE * a?;
    if room < size {
        return Err(Refusal {
            code: Code::NoRoom,
            place: 0,
        });
    }
    Ok(size)
}

// The image of the records at the indices below a count goes into the lent buffer, unless it is refused.
fn write_records<F: Fn(usize) -> Entry>(
    count: usize,
    get: &F,
    out: &mut [u8],
) -> Result<usize, Refusal>
    requires { (i : ℕ) → i < count → F.pre get.now i }
    ensures { (f : ℕ → Entry) → GivesBelow count (F.post get.now) f → (result ≡ write_answer (listed f 0 count) (length out.old)) × (out.new ≡ over (written_bytes (listed f 0 count) (length out.old)) out.old) }
{
    if COUNT_LIMIT <= count {
        return Err(Refusal {
            code: Code::TooLong,
            place: 0,
        });
    }
    let answer = bytes_for(test(count, get), out.len());
    if let Ok(_) = answer {
        put_header(out, count);
        put_records(count, get, out);
    }
    answer
}

// ---- lists of tokens
// The tokens of a file's first records, as many as the list has.
fn fill_tokens(file: &[u8], list: &mut [Token])
    ensures { list.new ≡ map token_in (entries_of file.now (length list.old)) }
{
    for (i, t) in list.iter_mut().enumerate() {
        *t = Token::from(entry_at(file, i));
    }
}

// The reader: the file's records go into the lent list, if it has room for all of them.
pub fn read(file: &[u8], list: &mut [Token]) -> Result<usize, Refusal>
    ensures { (result ≡ read_answer file.now (length list.old)) × (list.new ≡ over (read_tokens file.now (length list.old)) list.old) }
{
    let answer = read_answer(file, list.len());
    let n = count_of(answer);
    fill_tokens(file, &mut list[..n]);
    answer
}

// The writer: the image of the records goes into the lent buffer, unless it refuses.
pub fn write(list: &[Token], out: &mut [u8]) -> Result<usize, Refusal>
    ensures { (result ≡ write_answer (map entry_of list.now) (length out.old)) × (out.new ≡ over (written_bytes (map entry_of list.now) (length out.old)) out.old) }
{
    write_records(list.len(), &|i| Entry::from(list[i]), out)
}

// ---- records in lists of numbers, five to a record, for callers that cannot lend structs
pub const GROUP_SIZE: usize = 5;

// The record at an index of a list of numbers.
fn entry_in(list: &[u64], i: usize) -> Entry
    requires { group_size * (i + 1) ≤ length list.now }
    ensures { result ≡ entry_in list.now i }
{
    let p = GROUP_SIZE * i;
    Entry {
        kind: list[p],
        start: list[p + 1],
        end: list[p + 2],
    }
}

// One record's numbers: its payload places are its start.
fn put_group(list: &mut [u64], i: usize, e: Entry)
    requires { group_size * (i + 1) ≤ length list.old }
    ensures { list.new ≡ sets list.old (group_size * i) (numbers_in e) }
{
    let p = GROUP_SIZE * i;
    // copy_from_slice took 47 instructions a record of read_numbers, these stores 32.
    list[p] = e.kind;
    list[p + 1] = e.start;
    list[p + 2] = e.end;
    list[p + 3] = e.start;
    list[p + 4] = e.start;
}

// The numbers of a file's first n records.
fn fill_numbers(file: &[u8], list: &mut [u64], n: usize)
    requires { group_size * n ≤ length list.old }
    ensures { list.new ≡ sets list.old 0 (flat numbers_in (entries_of file.now n)) }
{
    for i in 0..n {
        put_group(list, i, entry_at(file, i));
    }
}

// The reader, into a list of numbers.
pub fn read_numbers(file: &[u8], list: &mut [u64]) -> Result<usize, Refusal>
    ensures { (result ≡ read_answer file.now (length list.old / group_size)) × (list.new ≡ over (read_numbers file.now (length list.old / group_size)) list.old) }
{
    let answer = read_answer(file, list.len() / GROUP_SIZE);
    fill_numbers(file, list, count_of(answer));
    answer
}

// The writer, from a list of numbers.
pub fn write_numbers(list: &[u64], out: &mut [u8]) -> Result<usize, Refusal>
    ensures { (result ≡ write_answer (entries_in list.now) (length out.old)) × (out.new ≡ over (written_bytes (entries_in list.now) (length out.old)) out.old) }
{
    write_records(list.len() / GROUP_SIZE, &|i| entry_in(list, i), out)
}
