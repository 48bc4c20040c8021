// The units.
// Kept: numbers, and no enum: State::step, State::same and put::row promise an answer for every number of a state.
pub const NONE: u32 = 0;

pub const METRIC: u32 = 1;

pub const INCH: u32 = 2;
