// Callers with plain parameters: a tokenizer and a list of records that stand in locals are lent here, so that a program need not lend them.
#![tactic(auto)]

ghost use Rattle.std.specs.Prelude.{◌≡◌, ◌+◌, ◌*◌, ◌≤◌, map, length, take};
ghost use Rattle.std.proofs.lemmas.List.Edits.{sets};
ghost use Rattle.record.specs.Records.{over};
ghost use Rattle.reading.specs.Answers.{start_state};
ghost use Rattle.ltk.specs.Ltk.{delivered, entry_of, read_answer, read_tokens, write_answer, written_bytes};
ghost use Rattle.run.specs.Checked.{next_token, ran_of, whole_run};
ghost use Rattle.run.specs.Numbers.{group_size, numbers_all, numbers_of};
ghost use Rattle.run.specs.Pending.{no_token};
ghost use Rattle.lent.specs.Copies.{fitted, highest_limit, list_room};

use ltk::GROUP_SIZE;
use reading::{Tokenizer, What};
use record::{Kind, Refusal, Token};
use run::Ran;

// What the single call answers, and the tokenizer that it leaves.
#[derive(Clone, Copy)]
pub struct Called {
    pub what: What,
    pub next: Tokenizer,
}

// The single call: the tokenizer stands in a local, which is lent.
pub fn next_lent(text: &[u8], shift: u64, limit: u64, from: Tokenizer) -> Called
    ensures { (result.what ≡ (next_token text.now shift limit from).what) × (result.next ≡ (next_token text.now shift limit from).next) }
{
    let mut t = from;
    let what = run::next(text, shift, limit, &mut t);
    Called { what, next: t }
}

// How many records a local list has room for.
const LIST_ROOM: usize = 32768;

// What a list is made of.
fn no_token() -> Token
    ensures { result ≡ no_token }
{
    record::token_of(Kind::Enum, 0, 0, 0, 0)
}

// A record as five numbers, kind, start, end, payload start, payload end, after i others.
fn put_group(records: &mut [u64], i: usize, t: Token)
    requires { group_size * (i + 1) ≤ length records.old }
    ensures { records.new ≡ sets records.old (group_size * i) (numbers_of t) }
{
    let p = GROUP_SIZE * i;
    records[p] = record::kind_number(t.kind) as u64;
    records[p + 1] = t.start;
    records[p + 2] = t.end;
    records[p + 3] = t.payload_start;
    records[p + 4] = t.payload_end;
}

// The first records of a lent list as numbers, if all of them fit.
fn copy_first(list: &[Token], count: usize, records: &mut [u64])
    requires { count ≤ length list.now }
    ensures { records.new ≡ fitted (numbers_all (take count list.now)) records.old }
{
    if records.len() / GROUP_SIZE < count {
        return;
    }
    for (i, t) in list[..count].iter().enumerate() {
        put_group(records, i, *t);
    }
}

// A whole run: the list stands in a local, which is lent, and its records are copied as numbers.
pub fn run_listed(text: &[u8], shift: u64, limit: u64, records: &mut [u64], from: Tokenizer) -> Ran
    ensures { (result ≡ ran_of text.now shift limit list_room from) × (records.new ≡ fitted (numbers_all (whole_run text.now shift limit list_room from).tokens) records.old) }
{
    let none = no_token();
    let mut list = [none; LIST_ROOM];
    let ran = run::run(text, shift, limit, &mut list, from);
    copy_first(&list, ran.stored, &mut *records);
    ran
}

// How many records the reader delivered.
fn count_of(a: Result<usize, Refusal>) -> usize
    ensures { result ≡ delivered a }
{
    a.unwrap_or(0)
}

// The reader of an LTK file: the list stands in a local, which is lent, and its records are copied as numbers.
pub fn read_listed(file: &[u8], records: &mut [u64]) -> Result<usize, Refusal>
    ensures { (result ≡ read_answer file.now list_room) × (records.new ≡ fitted (numbers_all (read_tokens file.now list_room)) records.old) }
{
    let none = no_token();
    let mut list = [none; LIST_ROOM];
    let answer = ltk::read(file, &mut list);
    let count = count_of(answer);
    copy_first(&list, count, &mut *records);
    answer
}

// The highest work limit.
const HIGHEST_LIMIT: u64 = 18446744073709551615;

// What a run answered, and the writer after it.
#[derive(Clone, Copy)]
pub struct Packed {
    pub ran: Ran,
    pub written: Result<usize, Refusal>,
}

// A text's LTK file: the list stands in a local, which is lent to a run; then the records that it stored, however it ended, are lent to the writer.
pub fn pack_listed(text: &[u8], file: &mut [u8]) -> Packed
    ensures { (result.ran ≡ ran_of text.now 0 highest_limit list_room start_state) × (result.written ≡ write_answer (map entry_of (whole_run text.now 0 highest_limit list_room start_state).tokens) (length file.old)) × (file.new ≡ over (written_bytes (map entry_of (whole_run text.now 0 highest_limit list_room start_state).tokens) (length file.old)) file.old) }
{
    let none = no_token();
    let mut list = [none; LIST_ROOM];
    let ran = run::run(text, 0, HIGHEST_LIMIT, &mut list, tok::start());
    let n = ran.stored;
    let written = ltk::write(&list[..n], &mut *file);
    Packed { ran, written }
}
