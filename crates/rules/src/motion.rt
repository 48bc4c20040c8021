// The motions: none, drill, rout with the tool up, rout with the tool down.
// Kept: numbers, and no enum: State::step, State::same and put::row promise an answer for every number of a state.
pub const NONE: u32 = 0;

pub const DRILL: u32 = 1;

pub const TOOL_UP: u32 = 2;

pub const TOOL_DOWN: u32 = 3;
