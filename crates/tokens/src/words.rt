// Words by their number in 01's list of names (`ControlWord` in the crate, whose names these are). Numbers, and no enum: the record that
// hosts read holds the number, and the table of names gives it; an enum of fifty would be made and taken apart again at each token.
pub const RTF: u32 = 0;

pub const ANSI: u32 = 1;

pub const UNICODE: u32 = 2; // \u

pub const UNICODE_IGNORE_COUNT: u32 = 3; // \uc

pub const FONT_TABLE: u32 = 4;

pub const COLOUR_TABLE: u32 = 5;

pub const FILE_TABLE: u32 = 6;

pub const STYLE_SHEET: u32 = 7;

pub const FONT_CHARSET: u32 = 8;

pub const FONT_NUMBER: u32 = 9; // \f

pub const FONT_SIZE: u32 = 10; // \fs

pub const COLOUR_NUMBER: u32 = 11; // \cf

pub const ITALIC: u32 = 12;

pub const BOLD: u32 = 13;

pub const UNDERLINE: u32 = 14;

pub const UNDERLINE_NONE: u32 = 15;

pub const SUPERSCRIPT: u32 = 16;

pub const SUBSCRIPT: u32 = 17;

pub const SMALLCAPS: u32 = 18;

pub const STRIKETHROUGH: u32 = 19;

pub const PAR: u32 = 20;

pub const PARD: u32 = 21;

pub const SECTD: u32 = 22;

pub const PLAIN: u32 = 23;

pub const PAR_STYLE: u32 = 24; // \s

pub const PAR_DEF_TAB: u32 = 25;

pub const LEFT_ALIGNED: u32 = 26; // \ql

pub const RIGHT_ALIGNED: u32 = 27; // \qr

pub const JUSTIFY: u32 = 28; // \qj

pub const CENTER: u32 = 29; // \qc

pub const FIRST_LINE_INDENT: u32 = 30; // \fi

pub const RIGHT_INDENT: u32 = 31; // \ri

pub const LEFT_INDENT: u32 = 32; // \li

pub const SPACE_BEFORE: u32 = 33; // \sb

pub const SPACE_AFTER: u32 = 34; // \sa

pub const SPACE_BETWEEN_LINE: u32 = 35; // \sl

pub const SPACE_LINE_MUL: u32 = 36; // \slmul

pub const COLOUR_RED: u32 = 37;

pub const COLOUR_GREEN: u32 = 38;

pub const COLOUR_BLUE: u32 = 39;

pub const EMDASH: u32 = 40;

pub const ENDASH: u32 = 41;

pub const BULLET: u32 = 42;

pub const LEFT_SINGLE_QUOTE: u32 = 43;

pub const RIGHT_SINGLE_QUOTE: u32 = 44;

pub const LEFT_DOUBLE_QUOTE: u32 = 45;

pub const RIGHT_DOUBLE_QUOTE: u32 = 46;

pub const TAB: u32 = 47;

pub const LINE: u32 = 48;
// "49 is unknown."
pub const UNKNOWN: u32 = 49;
