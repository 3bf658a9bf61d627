// The characters that the rules name, by their code points.
pub const NEWLINE: u32 = 10;

pub const BANG: u32 = 33;

pub const DOUBLE_QUOTE: u32 = 34;

pub const HASH: u32 = 35;

pub const AMPERSAND: u32 = 38;

pub const QUOTE: u32 = 39;

pub const LEFT_PAREN: u32 = 40;

pub const RIGHT_PAREN: u32 = 41;

pub const STAR: u32 = 42;

pub const PLUS: u32 = 43;

pub const COMMA: u32 = 44;

pub const MINUS: u32 = 45;

pub const DOT: u32 = 46;

pub const SLASH: u32 = 47;

pub const COLON: u32 = 58;

pub const SEMI: u32 = 59;

pub const LESS_THAN: u32 = 60;

pub const EQUALS: u32 = 61;

pub const GREATER_THAN: u32 = 62;

pub const QUESTION: u32 = 63;

pub const AT: u32 = 64;

pub const UPPER_L: u32 = 76;

pub const UPPER_R: u32 = 82;

pub const LEFT_BRACKET: u32 = 91;

pub const BACKSLASH: u32 = 92;

pub const RIGHT_BRACKET: u32 = 93;

pub const UNDERSCORE: u32 = 95;

pub const BACKTICK: u32 = 96;

pub const LOWER_R: u32 = 114;

pub const LEFT_BRACE: u32 = 123;

pub const RIGHT_BRACE: u32 = 125;

pub const TILDE: u32 = 126;
