// What a command gives to those who ask: the hole that it makes, and the diameter that it declares for a tool.
#![tactic(auto)]

ghost use Rattle.std.specs.Prelude.{◌≡◌};
ghost use Rattle.rules.specs.Answers.{hole_said};
ghost use Rattle.rules.specs.Asking as Asking;
ghost use Rattle.rules.specs.Holes as Holes;

use points::Point;
use rules::{Command, Hole, Refused, State, kind};

/// The hole that a command makes, given the point before it and the state after it.
#[tactic(auto, unfolding(rules::specs::Holes::hole_of))]
pub fn hole(command: Command, from: Point, state: State) -> Result<Option<Hole>, Refused>
    ensures { hole_said result ≡ hole_said (Holes.hole_of from command state) }
{
    let tool = state.tool;
    let hole = match command {
        Command::Hit(p) => Hole {
            kind: kind::HIT,
            tool,
            start: p,
            end: p,
            radius: 0,
        },
        Command::G01(p) => Hole {
            kind: kind::G01,
            tool,
            start: from,
            end: p,
            radius: 0,
        },
        Command::G02(a) => Hole {
            kind: kind::G02,
            tool,
            start: from,
            end: a.to,
            radius: a.radius,
        },
        Command::G03(a) => Hole {
            kind: kind::G03,
            tool,
            start: from,
            end: a.to,
            radius: a.radius,
        },
        _ => return Ok(None),
    };
    Ok(Some(hole))
}

/// The diameter that a command declares for a tool, if it does.
#[tactic(auto, using(crate::proofs::Gives::declared_this))]
pub fn diameter(command: Command, tool: u32) -> Option<u32>
    ensures { result ≡ Asking.declared_by tool command }
{
    if let Command::Declare(t, d) = command {
        if t == tool {
            return Some(d);
        }
    }
    None
}
