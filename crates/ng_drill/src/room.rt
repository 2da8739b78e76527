//! The memory of a drill.
ghost use Rattle.std.specs.Prelude.{◌≡◌, ◌≤◌, ◌*◌, [], IfOk, None, length, replicate};
ghost use Rattle.ng_drill.specs.Desks.{HasRoom};

use crate::answer::Answer;
use crate::desk::Desk;
use ng_script::Script;
use ng_space::Name;
use ng_terms::Host;
use std::alloc::{AllocError, Global};

/// Room for all that a script's commands make, and for their answers, all taken before the first heap call.
pub struct Room<N: Name> {
    pub(crate) desk: Desk<N>,
    pub(crate) answers: Vec<Answer>,
}

impl<N: Name> Room<N> {
    /// Takes the room for a script, in a space of so many pages.
    pub fn for_script(alloc: Global, script: &Script, pages: u32) -> Result<Room<N>, Host>
        ensures { IfOk result (λ room. HasRoom room script.now pages) }
    {
        match room_for(alloc, script, pages) {
            Ok(room) => Ok(room),
            Err(_) => Err(Host),
        }
    }

    /// Ends a room in which no block is.
    pub fn end(self)
        requires { self.desk.held.items ≡ [] }
    {
        let Room {
            desk,
            answers: _answers,
        } = self;
        let Desk {
            names: _names,
            held,
            places: _places,
        } = desk;
        held.destroy_empty();
    }
}

// The room for a script.
fn room_for<N: Name>(alloc: Global, script: &Script, pages: u32) -> Result<Room<N>, AllocError>
    ensures { IfOk result (λ room. HasRoom room script.now pages) }
{
    let commands = script.commands.len();
    let names = vec_of_none(alloc, script.names as usize)?;
    let places = vec_of_none(alloc, 256 * pages as usize)?;
    let answers = Vec::with_capacity(alloc, commands)?;
    let held = Vec::with_capacity(alloc, commands)?;
    let desk = Desk {
        names,
        held,
        places,
    };
    Ok(Room { desk, answers })
}

// So many places with nothing in them.
fn vec_of_none<T: Copy>(alloc: Global, count: usize) -> Result<Vec<Option<T>>, AllocError>
    ensures { IfOk result (λ places. places.items ≡ replicate count None) }
{
    vec![in alloc; None; count]
}
