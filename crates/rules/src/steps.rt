// The state machine: a method for each command, which tests in the order of the refusals and leaves at the first that fails.
ghost use Rattle.std.specs.Prelude.{◌≡◌, cond, Ok, Err};
ghost use Rattle.rules.specs.State as S;

use crate::{Command, Refusal, State, motion, phase, unit};
use points::{Arc, Point};
use tools::Tools;

// No tool is selected.
// Kept: 0, and no option: State::step promises an answer for every number of a state.
const NO_TOOL: u32 = 0;

// What a command needs: the refusal where the test fails.
fn need(test: bool, refusal: Refusal) -> Result<(), Refusal>
    ensures { result ≡ cond test (Ok tt) (Err refusal) }
{
    if test {
        return Ok(());
    }
    Err(refusal)
}

impl State {
    /// The state before the first line.
    pub fn new() -> State
        ensures { result ≡ S.start }
    {
        State {
            phase: phase::BEFORE_M48,
            unit: unit::NONE,
            motion: motion::NONE,
            tool: NO_TOOL,
            at: Point { x: 0, y: 0 },
            tools: Tools {
                a: 0,
                b: 0,
                c: 0,
                d: 0,
            },
        }
    }

    #[tactic(auto, unfolding(crate::specs::State::need))]
    fn comment(self) -> Result<State, Refusal>
        ensures { result ≡ S.comment self }
    {
        need(self.phase < phase::OVER, Refusal::WrongPhase)?;
        Ok(self)
    }

    #[tactic(auto, unfolding(crate::specs::State::need))]
    fn m48(mut self) -> Result<State, Refusal>
        ensures { result ≡ S.m48 self }
    {
        need(self.phase == phase::BEFORE_M48, Refusal::WrongPhase)?;
        self.phase = phase::BARE_HEADER;
        Ok(self)
    }

    // unit::METRIC, which is unit 1, and unit::INCH, which is unit 2.
    #[tactic(auto, unfolding(crate::specs::State::need))]
    fn unit(mut self, u: u32) -> Result<State, Refusal>
        ensures { result ≡ S.unit self u }
    {
        need(self.phase == phase::BARE_HEADER, Refusal::WrongPhase)?;
        self.phase = phase::HEADER;
        self.unit = u;
        Ok(self)
    }

    // A declaration of tool t. Its diameter is kept by its row, not by the state.
    #[tactic(auto, unfolding(crate::specs::State::need))]
    fn declare(mut self, t: u32) -> Result<State, Refusal>
        ensures { result ≡ S.declare self t }
    {
        need(self.phase == phase::HEADER, Refusal::WrongPhase)?;
        need(!self.tools.has(t), Refusal::DeclaredAlready)?;
        self.tools = self.tools.insert(t);
        Ok(self)
    }

    #[tactic(auto, unfolding(crate::specs::State::need))]
    fn percent(mut self) -> Result<State, Refusal>
        ensures { result ≡ S.percent self }
    {
        need(self.phase == phase::HEADER, Refusal::WrongPhase)?;
        self.phase = phase::BODY;
        Ok(self)
    }

    #[tactic(auto, unfolding(crate::specs::State::need))]
    fn select(mut self, t: u32) -> Result<State, Refusal>
        ensures { result ≡ S.select self t }
    {
        need(self.phase == phase::BODY, Refusal::WrongPhase)?;
        need(self.motion != motion::TOOL_DOWN, Refusal::WrongMotion)?;
        need(self.tools.has(t), Refusal::NotDeclared)?;
        self.tool = t;
        Ok(self)
    }

    // Drill mode begins at the origin.
    #[tactic(auto, unfolding(crate::specs::State::need))]
    fn g05(mut self) -> Result<State, Refusal>
        ensures { result ≡ S.g05 self }
    {
        need(self.phase == phase::BODY, Refusal::WrongPhase)?;
        need(self.motion != motion::TOOL_DOWN, Refusal::WrongMotion)?;
        self.motion = motion::DRILL;
        let origin = Point { x: 0, y: 0 };
        self.at = origin;
        Ok(self)
    }

    // Rout mode begins at p, with the tool up.
    #[tactic(auto, unfolding(crate::specs::State::need))]
    fn g00(mut self, p: Point) -> Result<State, Refusal>
        ensures { result ≡ S.g00 self p }
    {
        need(self.phase == phase::BODY, Refusal::WrongPhase)?;
        need(self.motion != motion::TOOL_DOWN, Refusal::WrongMotion)?;
        self.motion = motion::TOOL_UP;
        self.at = p;
        Ok(self)
    }

    // A hit leaves the point as it is: its own place stands in its row.
    #[tactic(auto, unfolding(crate::specs::State::need))]
    fn hit(self) -> Result<State, Refusal>
        ensures { result ≡ S.hit self }
    {
        need(self.phase == phase::BODY, Refusal::WrongPhase)?; // the phase before the motion
        need(self.motion == motion::DRILL, Refusal::WrongMotion)?;
        need(self.tool != NO_TOOL, Refusal::NoToolSelected)?; // nothing to drill with
        Ok(self)
    }

    // Tool down.
    #[tactic(auto, unfolding(crate::specs::State::need))]
    fn m15(mut self) -> Result<State, Refusal>
        ensures { result ≡ S.m15 self }
    {
        need(self.phase == phase::BODY, Refusal::WrongPhase)?;
        need(self.motion == motion::TOOL_UP, Refusal::WrongMotion)?;
        need(self.tool != NO_TOOL, Refusal::NoToolSelected)?;
        self.motion = motion::TOOL_DOWN;
        Ok(self)
    }

    // Tool up.
    #[tactic(auto, unfolding(crate::specs::State::need))]
    fn m16(mut self) -> Result<State, Refusal>
        ensures { result ≡ S.m16 self }
    {
        need(self.phase == phase::BODY, Refusal::WrongPhase)?;
        need(self.motion == motion::TOOL_DOWN, Refusal::WrongMotion)?;
        self.motion = motion::TOOL_UP;
        Ok(self)
    }

    // A straight rout to p: with the tool up it is G00.
    #[tactic(auto, unfolding(crate::specs::State::need))]
    fn g01(mut self, p: Point) -> Result<State, Refusal>
        ensures { result ≡ S.g01 self p }
    {
        need(self.phase == phase::BODY, Refusal::WrongPhase)?;
        need(self.motion == motion::TOOL_DOWN, Refusal::WrongMotion)?;
        self.at = p;
        Ok(self)
    }

    // A rout along an arc, G02 or G03.
    #[tactic(auto, unfolding(crate::specs::State::need))]
    fn arc(mut self, a: Arc) -> Result<State, Refusal>
        ensures { result ≡ S.arc self a }
    {
        need(self.phase == phase::BODY, Refusal::WrongPhase)?;
        need(self.motion == motion::TOOL_DOWN, Refusal::WrongMotion)?;
        need(a.is_possible(self.at), Refusal::ImpossibleArc)?;
        self.at = a.to;
        Ok(self)
    }

    // The run ends with the tool up.
    #[tactic(auto, unfolding(crate::specs::State::need))]
    fn m30(mut self) -> Result<State, Refusal>
        ensures { result ≡ S.m30 self }
    {
        need(self.phase == phase::BODY, Refusal::WrongPhase)?;
        need(self.motion != motion::TOOL_DOWN, Refusal::WrongMotion)?;
        self.phase = phase::OVER;
        Ok(self)
    }

    /// The state after a command, or why the command may not come here.
    #[tactic(auto, unfolding(crate::specs::State::step))]
    pub fn step(self, c: Command) -> Result<State, Refusal>
        ensures { result ≡ S.step self c }
    {
        match c {
            Command::Comment => self.comment(),
            Command::M48 => self.m48(),
            Command::Metric => self.unit(unit::METRIC),
            Command::Inch => self.unit(unit::INCH),
            Command::Declare(t, _) => self.declare(t),
            Command::Percent => self.percent(),
            Command::G05 => self.g05(),
            Command::G00(p) => self.g00(p),
            Command::Select(t) => self.select(t),
            Command::Hit(_) => self.hit(),
            Command::M15 => self.m15(),
            Command::M16 => self.m16(),
            Command::G01(p) => self.g01(p),
            Command::G02(a) => self.arc(a),
            Command::G03(a) => self.arc(a),
            Command::M30 => self.m30(),
        }
    }

    /// Whether the last command has come.
    pub fn has_ended(self) -> bool
        ensures { result ≡ S.has_ended self }
    {
        self.phase == phase::OVER
    }

    /// Whether two states agree in all ten numbers.
    // Kept: no `==`: docs/PROMISES.md has this promise, and those of `Point::same` and `Tools::same`, which `==` would pass by.
    #[tactic(auto, unfolding(crate::specs::State::same_state))]
    pub fn same(self, other: State) -> bool
        ensures { result ≡ S.same_state self other }
    {
        self.phase == other.phase
            && self.unit == other.unit
            && self.motion == other.motion
            && self.tool == other.tool
            && self.at.same(other.at)
            && self.tools.same(other.tools)
    }
}
