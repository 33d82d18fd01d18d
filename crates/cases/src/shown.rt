// What stands in the answers' lines.
ghost use Rattle.std.specs.Prelude.{◌≤◌, ◌<◌, length};
ghost use Rattle.std.specs.Str.{IsAscii};

use circuit::Table;
use std::fmt;

// The rows that are not empty: the station, and 16 digits.
#[derive(Clone, Copy)]
pub struct Rows<'a>(pub &'a [u64; 64]);

impl fmt::Display for Rows<'_> {
    fn fmt<W: fmt::Write>(&self, f: &mut fmt::Formatter<W>) -> fmt::Result {
        for (i, row) in self.0.iter().enumerate() {
            if *row != 0 {
                write!(f, " {}={}", i + 1, Hex(&row.to_be_bytes()))?;
            }
        }
        Ok(())
    }
}

// How many legs a table has, and its rows.
#[derive(Clone, Copy)]
pub struct Legs<'a>(pub &'a Table);

impl fmt::Display for Legs<'_> {
    fn fmt<W: fmt::Write>(&self, f: &mut fmt::Formatter<W>) -> fmt::Result {
        write!(
            f,
            " legs {}{}",
            circuit::legs(&self.0.rows),
            Rows(&self.0.rows)
        )
    }
}

// Two digits a byte.
#[derive(Clone, Copy)]
pub struct Hex<'a>(pub &'a [u8]);

impl fmt::Display for Hex<'_> {
    fn fmt<W: fmt::Write>(&self, f: &mut fmt::Formatter<W>) -> fmt::Result {
        let mut rest = self.0;
        while let Some((front, after)) = rest.split_first_chunk::<GROUP>() {
            write_digits(f, front)?;
            rest = after;
        }
        write_digits(f, rest)
    }
}

// So many bytes get their digits at once.
const GROUP: usize = 16;

fn digit(x: u8) -> u8
    requires { x < 16 }
    ensures { result < 128 }
{
    if x < 10 { b'0' + x } else { b'a' - 10 + x }
}

// The digits of a group of bytes, or of fewer.
// By hand: through `{:02x}` a byte at a time this took 3.3 times the time, and the program does little else.
fn digits(bytes: &[u8]) -> [u8; 2 * GROUP]
    requires { length bytes.now ≤ GROUP }
    ensures { IsAscii result }
{
    let mut text = [0u8; 2 * GROUP];
    for (i, byte) in bytes.iter().enumerate() {
        text[2 * i] = digit(byte >> 4);
        text[2 * i + 1] = digit(byte & 15);
    }
    text
}

fn write_digits<W: fmt::Write>(f: &mut fmt::Formatter<W>, bytes: &[u8]) -> fmt::Result
    requires { length bytes.now ≤ GROUP }
{
    let text = digits(bytes);
    f.write_str(str::from_utf8(&text[..2 * bytes.len()]).unwrap())
}
