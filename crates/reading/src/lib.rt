// What a call and a run answer. The reading rules stand in specs/, as definitions over characters; `words` and `tok` have the code.
#![tactic(auto)]

ghost use Rattle.std.specs.Prelude.{◌≡◌};
ghost use Rattle.reading.specs.Answers.{deliver, fail, plain, refuse};

use record::{Code, Kind, Reading, Refusal, Token};

// An attribute attempt: closed, with the place after `]` and the characters passed; or failed, with the place that it got to and the advances that it took.
pub type Attempt = Result<(usize, usize), (usize, usize)>;

// What a call answers.
#[derive(Clone, Copy)]
pub enum What {
    Got(Token),
    Error(Refusal),
    End,
}

// A call: its answer, the cursor after it, the advances that it took, and how deep the comments of its gap and of its code go.
#[derive(Clone, Copy)]
pub struct Call {
    pub what: What,
    pub at: u64,
    pub advances: u64,
    pub gap_depth: u64,
    pub code_depth: u64,
}

// Whether and how a tokenizer has ended.
#[derive(Clone, Copy)]
pub enum Outcome {
    Running,
    Ended,
    Refused(Refusal),
}

// The cursor, the advances till now, whether it has ended, and the reading that its caller chose.
#[derive(Clone, Copy)]
pub struct Tokenizer {
    pub at: u64,
    pub count: u64,
    pub done: Outcome,
    pub reading: Reading,
}

// An answer, the tokenizer after it, and how deep the comments go in the gap that was read for it.
#[derive(Clone, Copy)]
pub struct Stepped {
    pub what: What,
    pub next: Tokenizer,
    pub gap_depth: u64,
}

// A token that ends at the cursor p, after n advances.
pub fn deliver(kind: Kind, o: usize, from: usize, to: usize, p: usize, n: usize) -> Call
    ensures { result ≡ deliver kind o from to p n }
{
    let t = record::token_of(kind, o as u64, p as u64, from as u64, to as u64);
    Call {
        what: What::Got(t),
        at: p as u64,
        advances: n as u64,
        gap_depth: 0,
        code_depth: 0,
    }
}

// A token without a payload: both payload places equal its start.
pub fn plain(kind: Kind, o: usize, p: usize, n: usize) -> Call
    ensures { result ≡ plain kind o p n }
{
    deliver(kind, o, o, o, p, n)
}

// An error, with the cursor at p after n advances. The refusal is made anew: copied whole, the bytes between its code and its place are copied too.
pub fn fail(r: Refusal, p: usize, n: usize) -> Call
    ensures { result ≡ fail r p n }
{
    let code = r.code;
    let e = Refusal {
        code,
        place: r.place,
    };
    Call {
        what: What::Error(e),
        at: p as u64,
        advances: n as u64,
        gap_depth: 0,
        code_depth: 0,
    }
}

// A refusal, with the cursor at p after n advances.
pub fn refuse(code: Code, place: usize, p: usize, n: usize) -> Call
    ensures { result ≡ refuse code place p n }
{
    let r = Refusal {
        code,
        place: place as u64,
    };
    fail(r, p, n)
}
