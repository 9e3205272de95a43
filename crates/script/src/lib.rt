// What `names` reads: bytes to lines, a line to a command, a command to a turn.
#![tactic(auto)]

mod input;
mod lines;
mod turns;

pub use input::Reader;
pub use lines::{Command, LINE, Line, command_of};
pub use turns::{Shell, Turn};
