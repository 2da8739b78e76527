//! Replay: the ops of a plan are done on a heap, and each gets its reply.
#![tactic(auto)]

mod beside;
mod cap;
mod crew;
mod gate;
mod make;
mod op;
mod passing;
mod room;
mod source;
mod threading;
mod turns;
mod worker;

pub use cap::cap_of;
pub use crew::Crew;
pub use gate::{Gate, Open};
pub use ng_terms::{Made, Mode, Reply};
pub use op::do_op;
pub use room::Room;
pub use threading::threads;
pub use turns::serial;
