// Reads a sheet from standard input and prints the program's text.
#![tactic(auto)]

ghost use Rattle.std.specs.Prelude.{◌≤◌, length, take, IfOk};
ghost use Rattle.std.specs.Io.KnownBytes.{Consumes};
ghost use Rattle.writer.specs.inner.Writer.{Wrote};
ghost use Rattle.output.specs.Program.{program_text};
ghost use Rattle.output.specs.Sizes.{program_most};

use std::io;
use std::io::{ErrorKind, Read};

// The first 1,154 bytes decide the text (`first_bytes_print`).
const SHEET: usize = 1154;

// No text is longer (`program_most`).
const TEXT: usize = 11835;

// Reads until the input ends, the buffer is full or a read fails: what it read was the front of the input. A read that was interrupted is
// tried again. A proved loop has to end, and nothing says that the input does, so the turns are counted, up to a number that no run reaches.
// By hand: the tail of the buffer lent and its length back are the interface of `Read`.
fn read_sheet<R: Read>(input: &mut R, buf: &mut [u8]) -> io::Result<usize>
    ensures within { IfOk result (λ len. len ≤ length buf.new) }
    ensures bytes { IfOk result (λ len. Consumes (R.remaining input.old) (R.remaining input.new) (take len buf.new)) }
{
    let mut len = 0usize;
    for _ in 0..u64::MAX {
        if buf.len() <= len {
            break;
        }
        match input.read(&mut buf[len..]) {
            Ok(0) => break,
            Ok(more) => len += more,
            Err(e) if e.kind() == ErrorKind::Interrupted => {}
            Err(e) => return Err(e),
        }
    }
    Ok(len)
}

// The program's text for the sheet, into a buffer that has room for every text.
fn put_program(buf: &mut [u8], sheet: &[u8]) -> usize
    requires { program_most ≤ length buf.old }
    ensures { Wrote (program_text sheet.now) buf.old buf.new result × (result ≤ program_most) }
{
    output::print(sheet, buf).len
}

fn main(rt: HostRuntime) {
    let mut sheet = [0u8; SHEET];
    let Ok(len) = read_sheet(&mut rt.stdin(), &mut sheet) else {
        let _ = rt.eprintln("prune: cannot read standard input");
        return;
    };
    let mut text = [0u8; TEXT];
    let len = put_program(&mut text, &sheet[..len]);
    if rt.write_all(&text[..len]).is_err() {
        let _ = rt.eprintln("prune: cannot write standard output");
    }
}
