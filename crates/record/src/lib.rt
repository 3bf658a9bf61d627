// The words that all parts share: the kinds of token, the refusals, their numbers, and the checks that come before any reading.
#![tactic(auto)]

ghost use Rattle.std.specs.Prelude.{◌≡◌};
ghost use Rattle.record.specs.Numbers.{kind_number, code_number, kind_of};
ghost use Rattle.record.specs.Records.{told_number, token_of};
ghost use Rattle.record.specs.Checks.{checks};
ghost use Rattle.record.specs.Readings.{reading_of};
ghost use Rattle.record.specs.Rust.{rust_number};

// The kinds of token, in the order of the Rust's `Tok`.
#[derive(Clone, Copy)]
pub enum Kind {
    Enum,
    Extern,
    Grammar,
    Match,
    Else,
    If,
    Mut,
    Pub,
    In,
    Type,
    Where,
    For,
    Dyn,
    Use,
    Escape,
    Id,
    MacroId,
    Lifetime,
    StringLiteral,
    CharLiteral,
    RegexLiteral,
    Ampersand,
    BangEquals,
    BangTilde,
    Colon,
    ColonColon,
    Comma,
    DotDot,
    Equals,
    EqualsEquals,
    EqualsGreaterThanCode,
    EqualsGreaterThanQuestionCode,
    EqualsGreaterThanLookahead,
    EqualsGreaterThanLookbehind,
    Hash,
    GreaterThan,
    LeftBrace,
    LeftBracket,
    LeftParen,
    LessThan,
    Lookahead,
    Lookbehind,
    MinusGreaterThan,
    Plus,
    Question,
    RightBrace,
    RightBracket,
    RightParen,
    Semi,
    Star,
    TildeTilde,
    Underscore,
    Bang,
    ShebangAttribute,
}

// The refusals, in the order of their numbers: the first ten are the Rust's `ErrorCode`s.
#[derive(Clone, Copy)]
pub enum Code {
    UnrecognizedToken,
    UnterminatedEscape,
    UnterminatedAsciiEscape,
    UnrecognizedEscape,
    UnterminatedStringLiteral,
    UnterminatedCharacterLiteral,
    UnterminatedAttribute,
    UnterminatedCode,
    ExpectedStringLiteral,
    UnterminatedBlockComment,
    NotUtf8,
    TooLong,
    ShiftTooLarge,
    NoRoom,
    WorkLimit,
    TrailingBackslash,
    BadMark,
    UnknownVersion,
    BadLength,
    BadRecord,
    // 21 to 29 are document 02's; nothing answers those from 25 on yet
    SheetFull,
    HalfSymbol,
    StrayCharacter,
    UnknownReading,
    TooDeep,
    TextMismatch,
    ChangeListFull,
    BadEdit,
    StaleRecords,
}

// How a text is read: 01's reading, or the one that keeps the letter after an attribute (document 02, E5).
#[derive(Clone, Copy)]
pub enum Reading {
    Old,
    Kept,
}

#[derive(Clone, Copy)]
pub struct Refusal {
    pub code: Code,
    pub place: u64,
}

// A token: its kind, its places, and the greatest depth of the block comments in the gap before it and in its code, where that is known:
// a record that was read from a file doesn't tell it.
#[derive(Clone, Copy)]
pub struct Token {
    pub kind: Kind,
    pub start: u64,
    pub end: u64,
    pub payload_start: u64,
    pub payload_end: u64,
    pub gap_depth: Option<u64>,
    pub code_depth: Option<u64>,
}

pub const TEXT_LIMIT: usize = 2147483647;

// A refusal's number.
pub fn code_number(c: Code) -> u8
    ensures { result ≡ code_number c }
{
    c as u8 + 1
}

// The number that the Rust has for a refusal's: its one code became two.
pub fn rust_number(n: u8) -> u8
    ensures { result ≡ rust_number n }
{
    if (n == 22) | (n == 23) {
        return 1;
    }
    n
}

// A kind's number.
pub fn kind_number(k: Kind) -> u8
    ensures { result ≡ kind_number k }
{
    k as u8
}

const KINDS: [Kind; 54] = [
    Kind::Enum,
    Kind::Extern,
    Kind::Grammar,
    Kind::Match,
    Kind::Else,
    Kind::If,
    Kind::Mut,
    Kind::Pub,
    Kind::In,
    Kind::Type,
    Kind::Where,
    Kind::For,
    Kind::Dyn,
    Kind::Use,
    Kind::Escape,
    Kind::Id,
    Kind::MacroId,
    Kind::Lifetime,
    Kind::StringLiteral,
    Kind::CharLiteral,
    Kind::RegexLiteral,
    Kind::Ampersand,
    Kind::BangEquals,
    Kind::BangTilde,
    Kind::Colon,
    Kind::ColonColon,
    Kind::Comma,
    Kind::DotDot,
    Kind::Equals,
    Kind::EqualsEquals,
    Kind::EqualsGreaterThanCode,
    Kind::EqualsGreaterThanQuestionCode,
    Kind::EqualsGreaterThanLookahead,
    Kind::EqualsGreaterThanLookbehind,
    Kind::Hash,
    Kind::GreaterThan,
    Kind::LeftBrace,
    Kind::LeftBracket,
    Kind::LeftParen,
    Kind::LessThan,
    Kind::Lookahead,
    Kind::Lookbehind,
    Kind::MinusGreaterThan,
    Kind::Plus,
    Kind::Question,
    Kind::RightBrace,
    Kind::RightBracket,
    Kind::RightParen,
    Kind::Semi,
    Kind::Star,
    Kind::TildeTilde,
    Kind::Underscore,
    Kind::Bang,
    Kind::ShebangAttribute,
];

// The kind of a number. RULES names this contract; a TryFrom beside it would say the same again.
pub fn kind_of(n: u8) -> Option<Kind>
    ensures { result ≡ kind_of n }
{
    if 54 <= n {
        return None;
    }
    Some(KINDS[n as usize])
}

// The reading of a number, likewise.
pub fn reading_of(n: u64) -> Option<Reading>
    ensures { result ≡ reading_of n }
{
    match n {
        0 => Some(Reading::Old),
        1 => Some(Reading::Kept),
        _ => None,
    }
}

// The number for what is told: the highest of all where it is not known.
pub fn told_number(t: Option<u64>) -> u64
    ensures { result ≡ told_number t }
{
    t.unwrap_or(u64::MAX)
}

// A token's record, without what only a run can tell. The reading makes it here and nowhere else.
pub fn token_of(kind: Kind, start: u64, end: u64, from: u64, to: u64) -> Token
    ensures { result ≡ token_of kind start end from to }
{
    Token {
        kind,
        start,
        end,
        payload_start: from,
        payload_end: to,
        gap_depth: None,
        code_depth: None,
    }
}

// The checks before any reading, in their order: 12, 13, 11.
pub fn checks(text: &[u8], shift: u64) -> Result<(), Refusal>
    ensures { result ≡ checks text.now shift }
{
    if TEXT_LIMIT < text.len() {
        return Err(Refusal {
            code: Code::TooLong,
            place: 0,
        });
    }
    if u64::MAX - shift < (text.len() as u64) {
        return Err(Refusal {
            code: Code::ShiftTooLarge,
            place: 0,
        });
    }
    match utf8::check(text) {
        Ok(()) => Ok(()),
        Err(place) => Err(Refusal {
            code: Code::NotUtf8,
            place: (place as u64) + shift,
        }),
    }
}
