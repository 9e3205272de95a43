// What is to be done at a line: the command, the cut that waits and the count of lines decide.
ghost use Rattle.std.specs.Prelude.{◌≡◌};
ghost use Rattle.script.specs.Turns.{fresh, step, turn_of};

use crate::lines::Command;

// The lines so far, and the stores after which the cut comes that waits for the next P or D, if one does.
#[derive(Clone, Copy)]
pub struct Shell {
    pub lines: u64,
    pub pending: Option<usize>,
}

// What is to be done at a line. A wrong line has its number.
#[derive(Clone, Copy)]
pub enum Turn {
    Put(u64, u64),
    Delete(u64),
    Get(u64),
    Listing,
    CutPut(usize, u64, u64),
    CutDelete(usize, u64),
    Nothing,
    Wrong(u64),
}

impl Shell {
    // Before the first line.
    pub fn new() -> Self
        ensures { result ≡ fresh }
    {
        Shell {
            lines: 0,
            pending: None,
        }
    }

    // The turn of the next line, by its command, if it has one. A cut that waits is over with this line, whatever it is.
    pub fn step(&mut self, command: Option<Command>) -> Turn
        ensures { step result self.new ≡ turn_of self.old command }
    {
        self.lines = self.lines.saturating_add(1);
        match (self.pending.take(), command) {
            (None, Some(Command::Put(key, value))) => Turn::Put(key, value),
            (None, Some(Command::Delete(key))) => Turn::Delete(key),
            (None, Some(Command::Get(key))) => Turn::Get(key),
            (None, Some(Command::Listing)) => Turn::Listing,
            (None, Some(Command::Cut(stores))) => {
                self.pending = Some(stores);
                Turn::Nothing
            }
            (Some(stores), Some(Command::Put(key, value))) => Turn::CutPut(stores, key, value),
            (Some(stores), Some(Command::Delete(key))) => Turn::CutDelete(stores, key),
            _ => Turn::Wrong(self.lines),
        }
    }
}
