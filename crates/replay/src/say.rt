// What the program prints.
use recorded::Difference;

// The forms in which a case is asked: a text in the first three, an expansion in the fourth.
#[derive(Clone, Copy)]
pub enum Form {
    Run,
    Next,
    Numbers,
    Expand,
}

// What a case is.
#[derive(Clone, Copy)]
pub enum Kind {
    Text,
    Expansion,
}

// A case: what it is, whether it is planted, whether its difference is said, and its number.
#[derive(Clone, Copy)]
pub struct Case {
    pub kind: Kind,
    pub planted: bool,
    pub said: bool,
    pub index: u64,
}

// What cannot be written is let go.
pub(crate) fn say(rt: &HostRuntime, words: &[u8]) {
    let _ = rt.write_all(words);
}

pub(crate) fn number(rt: &HostRuntime, n: u64) {
    let _ = print!(rt; "{n}");
}

// Which case it is.
fn title(rt: &HostRuntime, c: Case) {
    if c.planted {
        say(rt, b"planted ");
    }
    match c.kind {
        Kind::Text => say(rt, b"text "),
        Kind::Expansion => say(rt, b"expansion "),
    }
    number(rt, c.index);
}

pub(crate) fn not_whole(rt: &HostRuntime, c: Case) {
    title(rt, c);
    say(rt, b" is not whole\n");
}

// The case and the form.
fn titles(rt: &HostRuntime, c: Case, f: Form) {
    title(rt, c);
    match f {
        Form::Run => say(rt, b", run::run"),
        Form::Next => say(rt, b", run::next"),
        Form::Numbers => say(rt, b", run::run_numbers"),
        Form::Expand => {}
    }
}

// Which number of a token it is.
fn of_token(rt: &HostRuntime, i: usize) {
    match i {
        0 => say(rt, b"kind"),
        1 => say(rt, b"start"),
        2 => say(rt, b"end"),
        3 => say(rt, b"payload start"),
        _ => say(rt, b"payload end"),
    }
}

// Which number of a text's answer it is.
fn of_text(rt: &HostRuntime, i: usize) {
    match i {
        0 => say(rt, b"number of tokens"),
        1 => say(rt, b"code"),
        2 => say(rt, b"place"),
        3 => say(rt, b"advances"),
        4 => say(rt, b"cursor"),
        _ => {
            let k = i - 5;
            of_token(rt, k % 5);
            say(rt, b" of token ");
            number(rt, (k / 5) as u64);
        }
    }
}

// Which number of an expansion's answer it is.
fn of_expansion(rt: &HostRuntime, i: usize) {
    match i {
        0 => say(rt, b"code"),
        1 => say(rt, b"place"),
        2 => say(rt, b"where it stands"),
        3 => say(rt, b"start"),
        4 => say(rt, b"end"),
        5 => say(rt, b"bytes written"),
        _ => {
            say(rt, b"byte ");
            number(rt, (i - 6) as u64);
        }
    }
}

// Which number of a form's answer it is.
fn field(rt: &HostRuntime, f: Form, i: usize) {
    match f {
        Form::Run | Form::Next | Form::Numbers => of_text(rt, i),
        Form::Expand => of_expansion(rt, i),
    }
}

fn both(rt: &HostRuntime, recorded: u64, answered: u64) {
    say(rt, b": recorded ");
    number(rt, recorded);
    say(rt, b", answered ");
    number(rt, answered);
    say(rt, b"\n");
}

fn difference(rt: &HostRuntime, f: Form, d: Difference) {
    say(rt, b": ");
    match d {
        Difference::Same => {}
        Difference::Length(r, a) => {
            say(rt, b"length of the answer");
            both(rt, r, a);
        }
        Difference::Number(i, r, a) => {
            field(rt, f, i);
            both(rt, r, a);
        }
    }
}

// A sheet that differs from the sums of the recorded answers.
pub(crate) fn sum(rt: &HostRuntime, d: Difference) {
    match d {
        Difference::Same => {}
        Difference::Length(r, a) => {
            say(rt, b"length of a sheet");
            both(rt, r, a);
        }
        Difference::Number(i, r, a) => {
            say(rt, b"number ");
            number(rt, i as u64);
            say(rt, b" of a sheet");
            both(rt, r, a);
        }
    }
}

// Whether a form of a case differs. A difference is said, and of a planted case also that there is none.
pub(crate) fn differs(rt: &HostRuntime, c: Case, f: Form, d: Difference) -> bool {
    match d {
        Difference::Same => {
            if c.planted {
                titles(rt, c, f);
                say(rt, b" shows no difference\n");
            }
            false
        }
        _ => {
            if c.said {
                titles(rt, c, f);
                difference(rt, f, d);
            }
            true
        }
    }
}
