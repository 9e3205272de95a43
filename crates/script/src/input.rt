// The input, byte by byte: what is to be done at each.
ghost use Rattle.std.specs.Prelude.{◌≡◌};
ghost use Rattle.script.specs.Input.{begun, taken, whole, taken_of, end_of};

use crate::lines::{self, Line};
use crate::turns::{Shell, Turn};

// The line that is being gathered, and the state that the lines before it left.
#[derive(Clone, Copy)]
pub struct Reader {
    pub line: Line,
    pub shell: Shell,
}

impl Reader {
    // Before the first byte.
    pub fn new() -> Self
        ensures { result ≡ begun }
    {
        Reader {
            line: Line::new(),
            shell: Shell::new(),
        }
    }

    // Takes the next byte of the input: a newline ends the line, and a line that is not whole yet asks for nothing.
    pub fn take(&mut self, byte: u8) -> Turn
        ensures { taken result self.new ≡ taken_of self.old byte }
    {
        if byte == b'\n' {
            return self.end_line();
        }
        self.line.push(byte);
        Turn::Nothing
    }

    // Takes the end of the input: the last line may lack its newline.
    pub fn end(&mut self) -> Turn
        ensures { taken result self.new ≡ end_of self.old }
    {
        if self.line.is_empty() {
            return Turn::Nothing;
        }
        self.end_line()
    }

    // The turn of a line that is whole, after which the next line begins.
    fn end_line(&mut self) -> Turn
        ensures { taken result self.new ≡ whole self.old }
    {
        let turn = self.shell.step(lines::command_of(self.line.as_slice()));
        self.line.clear();
        turn
    }
}
