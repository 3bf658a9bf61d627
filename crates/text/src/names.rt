// The names of the kinds and of the refusals, by their numbers. No refusal has number 0, so the first of their names is empty.
pub const KIND_NAMES: [&str; 54] = [
    "Enum",
    "Extern",
    "Grammar",
    "Match",
    "Else",
    "If",
    "Mut",
    "Pub",
    "In",
    "Type",
    "Where",
    "For",
    "Dyn",
    "Use",
    "Escape",
    "Id",
    "MacroId",
    "Lifetime",
    "StringLiteral",
    "CharLiteral",
    "RegexLiteral",
    "Ampersand",
    "BangEquals",
    "BangTilde",
    "Colon",
    "ColonColon",
    "Comma",
    "DotDot",
    "Equals",
    "EqualsEquals",
    "EqualsGreaterThanCode",
    "EqualsGreaterThanQuestionCode",
    "EqualsGreaterThanLookahead",
    "EqualsGreaterThanLookbehind",
    "Hash",
    "GreaterThan",
    "LeftBrace",
    "LeftBracket",
    "LeftParen",
    "LessThan",
    "Lookahead",
    "Lookbehind",
    "MinusGreaterThan",
    "Plus",
    "Question",
    "RightBrace",
    "RightBracket",
    "RightParen",
    "Semi",
    "Star",
    "TildeTilde",
    "Underscore",
    "Bang",
    "ShebangAttribute",
];

pub const CODE_NAMES: [&str; 30] = [
    "",
    "UnrecognizedToken",
    "UnterminatedEscape",
    "UnterminatedAsciiEscape",
    "UnrecognizedEscape",
    "UnterminatedStringLiteral",
    "UnterminatedCharacterLiteral",
    "UnterminatedAttribute",
    "UnterminatedCode",
    "ExpectedStringLiteral",
    "UnterminatedBlockComment",
    "NotUtf8",
    "TooLong",
    "ShiftTooLarge",
    "NoRoom",
    "WorkLimit",
    "TrailingBackslash",
    "BadMark",
    "UnknownVersion",
    "BadLength",
    "BadRecord",
    "SheetFull",
    "HalfSymbol",
    "StrayCharacter",
    "UnknownReading",
    "TooDeep",
    "TextMismatch",
    "ChangeListFull",
    "BadEdit",
    "StaleRecords",
];

// The phrases of the lines, and their indexes.
pub const PHRASES: [&str; 14] = [
    " ",
    "\n",
    "end advances ",
    "error ",
    " at ",
    " advances ",
    "end records ",
    " payload ",
    " bytes",
    ":",
    ": ",
    " (limit ",
    ")\n",
    " depth ",
];

pub const SPACE: usize = 0;

pub const NEWLINE: usize = 1;

pub const END_ADVANCES: usize = 2;

pub const ERROR: usize = 3;

pub const AT: usize = 4;

pub const ADVANCES: usize = 5;

pub const END_RECORDS: usize = 6;

pub const COLON: usize = 9;

pub const COLON_SPACE: usize = 10;

pub const LIMIT: usize = 11;

pub const CLOSE: usize = 12;

pub const DEPTH: usize = 13;
