// The phases of a file: before M48, the header before its unit and after it, the body, and after M30.
// Kept: numbers, and no enum: State::step, State::same and put::row promise an answer for every number of a state.
pub const BEFORE_M48: u32 = 0;

pub const BARE_HEADER: u32 = 1;

pub const HEADER: u32 = 2;

pub const BODY: u32 = 3;

pub const OVER: u32 = 4;
