// What the rules are asked.
ghost use Rattle.std.specs.Prelude.{◌<◌, ◌≤◌};
ghost use Rattle.ng_policy.specs.Ask.{AskInRange};
ghost use Rattle.ng_group.specs.Building.{IsAsk};
ghost use Rattle.ng_group.specs.States.{Working};

use crate::works::Works;
use ng_mapper::Mapper;
use ng_policy::{Ask, Rules};
use ng_space::Name;

impl<N: Name, M: Mapper, P: Rules> Works<N, M, P> {
    /// What the rules are asked of a new group of a class.
    pub(crate) fn ask(&self, class: u32) -> Ask
        requires class { class < 48 }
        requires few { N.facts.start.pages ≤ 16384 }
        requires working { Working N.facts.start M.span M.runs M.refused self.now }
        ensures range { AskInRange result }
        ensures asks { IsAsk self.now.usage self.now.bounces class result }
    {
        let usage = &self.usage;
        let near = if class % 2 == 0 && class < 32 {
            usage[class as usize + 1]
        } else {
            0
        };
        Ask {
            class,
            usage: usage[class as usize],
            near,
            bouncing: self.bounce.bouncing(class),
        }
    }
}
