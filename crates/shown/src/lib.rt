// What the programs of examples say, as bytes: numbers, names, refusals, what was put into a buffer; and in `page` what becomes of a sheet. Nothing here prints.
#![tactic(auto)]

pub mod page;

ghost use Rattle.std.specs.Prelude.{ℕ, List, ◌≡◌, ◌≤◌, take};
ghost use Rattle.record.specs.Numbers.{code_number};
ghost use Rattle.text.specs.Digits.{digits};
ghost use Rattle.text.specs.Lines.{refusal_line};
ghost use Rattle.text.specs.Names.{code_name, kind_name};
ghost use Rattle.shown.specs.Came.{came_of, no_room};

use record::Refusal;
use std::marker::Model;

// No words here are longer.
const MOST: usize = 128;

// A number, a name or a line, as bytes.
#[derive(Drop)]
pub struct Words {
    held: [u8; MOST],
    length: usize,
}

impl Model for Words {
    ghost Value = { List ℕ };

    ghost view = { λ w. take w.length w.held };

    ghost invariant = { λ w. w.length ≤ 128 };
}

impl Words {
    pub fn bytes(&self) -> &[u8]
        ensures { result.now ≡ self.now }
    {
        &self.held[..self.length]
    }
}

// The bytes of a buffer up to where they came, or other words for what did not fit.
pub fn came_or<'a>(buffer: &'a [u8], to: Option<usize>, full: &'a [u8]) -> &'a [u8]
    ensures { result.now ≡ came_of buffer.now to full.now }
{
    match to {
        Some(n) => buffer.get(..n).unwrap_or(b""),
        None => full,
    }
}

#[tactic(auto, unfolding(text::specs::Bytes::bytes, crate::specs::Came::no_room))]
pub fn came(buffer: &[u8], to: Option<usize>) -> &[u8]
    ensures { result.now ≡ came_of buffer.now to no_room }
{
    came_or(buffer, to, b"does not fit")
}

pub fn number(n: u64) -> Words
    ensures { result ≡ digits n }
{
    let mut held = [0u8; MOST];
    let length = text::number(&mut held, Some(0), n).unwrap_or(0);
    Words { held, length }
}

// A kind's name, by its number.
pub fn kind(n: u64) -> Words
    ensures { result ≡ kind_name n }
{
    let mut held = [0u8; MOST];
    let length = text::kind_name(&mut held, Some(0), n).unwrap_or(0);
    Words { held, length }
}

// A refusal's name, by its number.
pub fn code(n: u64) -> Words
    ensures { result ≡ code_name n }
{
    let mut held = [0u8; MOST];
    let length = text::code_name(&mut held, Some(0), n).unwrap_or(0);
    Words { held, length }
}

// `error NAME at P`
pub fn refusal(r: Refusal) -> Words
    ensures { result ≡ refusal_line (code_number r.code) r.place }
{
    let mut held = [0u8; MOST];
    let number = u64::from(record::code_number(r.code));
    let length = text::refusal_line(&mut held, Some(0), number, r.place).unwrap_or(0);
    Words { held, length }
}
