// A line of the output: put together in an array, so that it is written at once.
ghost use Rattle.std.specs.Prelude.{◌≤◌};
ghost use Rattle.cases.specs.declared.line.TheConstants.{LINE};

use std::fmt::Write;
use std::{fmt, io};

// The longest line, that of a state with all its rows, has 1,382 bytes.
const LINE: usize = 1536;

#[derive(Drop)]
struct Line {
    bytes: [u8; LINE],
    len: usize,
    ghost bounded: { len ≤ LINE },
}

impl Line {
    fn new() -> Line {
        Line {
            bytes: [0; LINE],
            len: 0,
        }
    }

    fn written(&self) -> &[u8] {
        &self.bytes[..self.len]
    }
}

// What has no room is left out.
impl fmt::Write for Line {
    fn write_str(&mut self, text: &str) -> fmt::Result {
        let room = &mut self.bytes[self.len..];
        let fits = text.len().min(room.len());
        room[..fits].copy_from_slice(&text.as_bytes()[..fits]);
        self.len += fits;
        Ok(())
    }
}

// Prints a line: one write a line, not one a word. Neither the line nor what stands in it fails.
pub fn print_line<D: fmt::Display + Drop>(rt: &impl Print, text: D) -> io::Result<()> {
    let mut line = Line::new();
    let _ = line.writeln(text);
    rt.write_all(line.written())
}
