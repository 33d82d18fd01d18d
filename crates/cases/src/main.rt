// Answers a script of calls from standard input. A command is an opcode byte and its arguments, integers little-endian:
//
//   O  open        limit u64, length u16, sheet bytes
//   W  work state  n, limit, place u64, mark u8, end u8, row count u8, at most 64, rows u64
//   A  again       the last O or W once more
//   S  sweep
//   C  chain step
//   P  pass        seed u64
//   V  preview     the command S, C or P that is shown first, with its argument
//   K  cut step    row count u8, at most 64, rows u64 of the must-drive table
//   R  run         budget u32
//   L  list check  length u16, numbers one byte each
//   T  report      buffer length u16, at most 16,384
//   B  write       buffer length u16, at most 640
//   F  first       node budget u32, list length u8
//
// The calls work on one current state, at first the blank one. The rows of a work state and of a must-drive table beyond the row count
// are empty. An unknown or cut command, or an argument out of its range, is answered by `stop`, and ends the script.
#![tactic(auto)]

mod answer;
mod command;
mod line;
mod play;
mod room;
mod script;
mod shown;

ghost use Rattle.std.specs.Prelude.{◌≡◌, ◌≢◌, ◌≤◌, length, IfSome};
ghost use Rattle.cases.specs.inner.Taken.{Takes};

use circuit::Work;
use command::Command;
use play::play;
use script::Script;
use std::io;
use std::io::Read;

// The longest script; what is past it is not read.
const SCRIPT: usize = 524288;

// The command of an opcode: the last one that made a state once more, or one whose arguments follow in the script.
fn next_command<'a>(
    opcode: u8,
    script: &mut Script<'a>,
    maker: Option<Command<'a>>,
) -> Option<Command<'a>>
    ensures falls { length script.new.rest.now ≤ length script.old.rest.now }
    ensures again { opcode ≡ 65 → (result ≡ maker.entry) × (script.new.rest.now ≡ script.old.rest.now) }
    ensures taken { opcode ≢ 65 → IfSome result (λ command. Takes command (length script.old.rest.now) (length script.new.rest.now)) }
{
    match opcode {
        b'A' => maker,
        _ => Command::read(opcode, script),
    }
}

fn answer_script(rt: &impl Print, mut script: Script) -> io::Result<()> {
    let mut work = Work::blank();
    // The last command that made a state.
    let mut maker = None;
    while let Some(opcode) = script.byte() {
        let Some(command) = next_command(opcode, &mut script, maker) else {
            return println!(rt; "stop");
        };
        if command.makes_state() {
            maker = Some(command);
        }
        work = play(rt, command, work)?;
    }
    Ok(())
}

fn main(rt: HostRuntime) -> io::Result<()> {
    let mut script = Vec::new(rt.alloc());
    rt.stdin().take(SCRIPT as u64).read_to_end(&mut script)?;
    answer_script(&rt, Script::new(&script))
}
