ghost use Rattle.std.specs.Prelude.{◌≡◌};
ghost use Rattle.ng_plan.specs.Mentions.{ended as ended_of, made as made_of};

use ng_mtrace::Line;

/// The name that a line ends.
pub fn ended(line: &Line) -> Option<u64>
    ensures { result ≡ ended_of line.now }
{
    match *line {
        Line::Make { name: _, size: _ } => None,
        Line::End { name } => Some(name),
        Line::Move {
            old,
            name: _,
            size: _,
        } => Some(old),
    }
}

/// The name that a line makes.
pub fn made(line: &Line) -> Option<u64>
    ensures { result ≡ made_of line.now }
{
    match *line {
        Line::Make { name, size: _ } => Some(name),
        Line::End { name: _ } => None,
        Line::Move {
            old: _,
            name,
            size: _,
        } => Some(name),
    }
}
