// The kinds of commands, by document 01's numbers: a row's first number.
// Kept: numbers, and no enum: a row holds any number, and print::put_hole_line promises a line for a hole of any kind.
pub const COMMENT: u32 = 0;

pub const M48: u32 = 1;

pub const METRIC: u32 = 2;

pub const INCH: u32 = 3;

pub const DECLARE: u32 = 4;

pub const PERCENT: u32 = 5;

pub const G05: u32 = 6;

pub const G00: u32 = 7;

pub const SELECT: u32 = 8;

pub const HIT: u32 = 9;

pub const M15: u32 = 10;

pub const M16: u32 = 11;

pub const G01: u32 = 12;

pub const G02: u32 = 13;

pub const G03: u32 = 14;

pub const M30: u32 = 15;
