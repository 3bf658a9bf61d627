// Answers that were recorded as lists of numbers: their parts, and where an answer first differs from what is recorded.
#![tactic(auto)]

ghost use Rattle.std.specs.Prelude.{◌≡◌, ℕ, drop, get_or, map, take};
ghost use Rattle.recorded.specs.Recorded.{differ};

// Nothing differs; or the answer has not as many numbers as are recorded; or the first number that differs: its place in the answer, what is recorded
// and what was answered.
#[derive(Clone, Copy)]
pub enum Difference {
    Same,
    Length(u64, u64),
    Number(usize, u64, u64),
}

// The number at a place; 0 where the list has none.
pub fn get(list: &[u64], at: usize) -> u64
    ensures { result ≡ get_or list.now at 0 }
{
    list.get(at).copied().unwrap_or(0)
}

// What stands in a list from a place on.
pub fn rest<T>(list: &[T], from: usize) -> &[T]
    ensures { result.now ≡ drop from list.now }
{
    list.get(from..).unwrap_or(&[])
}

// The first numbers of a list, at most so many.
pub fn front<T>(list: &[T], count: usize) -> &[T]
    ensures { result.now ≡ take count list.now }
{
    list.get(..count).unwrap_or(list)
}

// What an answer is made of: numbers, or bytes, which are recorded as numbers.
trait Number: Copy {
    ghost value: { Self → ℕ };

    fn number(self) -> u64
        ensures { result ≡ value self };
}

impl Number for u64 {
    ghost value = { λ n. n };

    fn number(self) -> u64 {
        self
    }
}

impl Number for u8 {
    ghost value = { λ b. b };

    fn number(self) -> u64 {
        u64::from(self)
    }
}

// Where an answer differs, the first number of which has the place `first` in it.
fn first_difference<T: Number>(first: u32, recorded: &[u64], answered: &[T]) -> Difference
    ensures { result ≡ differ first recorded.now (map T.value answered.now) }
{
    if recorded.len() != answered.len() {
        return Difference::Length(recorded.len() as u64, answered.len() as u64);
    }
    for (i, r) in recorded.iter().enumerate() {
        let a = answered[i].number();
        if *r != a {
            return Difference::Number(first as usize + i, *r, a);
        }
    }
    Difference::Same
}

// Where numbers of an answer differ, the first of which has the place `first` in it.
pub fn numbers_differ(first: u32, recorded: &[u64], answered: &[u64]) -> Difference
    ensures { result ≡ differ first recorded.now answered.now }
{
    first_difference(first, recorded, answered)
}

// The same for bytes, which are recorded as numbers.
pub fn bytes_differ(first: u32, recorded: &[u64], answered: &[u8]) -> Difference
    ensures { result ≡ differ first recorded.now answered.now }
{
    first_difference(first, recorded, answered)
}
