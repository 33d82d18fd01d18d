// The commands of a script.
ghost use Rattle.std.specs.Prelude.{◌≡◌, ◌+◌, ◌≤◌, length, IfSome};
ghost use Rattle.cases.specs.inner.Taken.{rule_size, Takes};

use crate::room::Room;
use crate::script::Script;
use circuit::{End, Table, Work};
use filter::Rule;

// The longest report buffer.
pub const REPORT: usize = 16384;

// The longest buffer of a written sheet.
pub const SHEET: usize = 640;

#[derive(Clone, Copy)]
pub enum Command<'a> {
    Open { limit: usize, sheet: &'a [u8] },
    Set(Work),
    Call(Rule),
    Preview(Rule),
    Cut([u64; 64]),
    Run(u32),
    Check(&'a [u8]),
    Report(Room<REPORT>),
    Write(Room<SHEET>),
    First { budget: u32, len: u8 },
}

impl<'a> Command<'a> {
    // The command with this opcode, whose arguments follow in the script.
    pub fn read(opcode: u8, script: &mut Script<'a>) -> Option<Command<'a>>
        ensures falls { length script.new.rest.now ≤ length script.old.rest.now }
        ensures taken { IfSome result (λ command. Takes command (length script.old.rest.now) (length script.new.rest.now)) }
    {
        Some(match opcode {
            b'O' => Command::Open {
                limit: script.size()?,
                sheet: script.bytes()?,
            },
            b'W' => Command::Set(read_work(script)?),
            b'S' | b'C' | b'P' => Command::Call(read_rule(opcode, script)?),
            b'V' => {
                let shown = script.byte()?;
                Command::Preview(read_rule(shown, script)?)
            }
            b'K' => Command::Cut(script.rows()?),
            b'R' => Command::Run(script.u32()?),
            b'L' => Command::Check(script.bytes()?),
            b'T' => Command::Report(Room::read(script)?),
            b'B' => Command::Write(Room::read(script)?),
            b'F' => Command::First {
                budget: script.u32()?,
                len: script.byte()?,
            },
            _ => return None,
        })
    }

    pub fn makes_state(&self) -> bool {
        matches!(self, Command::Open { .. } | Command::Set(_))
    }
}

fn read_rule(opcode: u8, script: &mut Script) -> Option<Rule>
    ensures falls { length script.new.rest.now ≤ length script.old.rest.now }
    ensures taken { IfSome result (λ rule. length script.new.rest.now + rule_size rule ≡ length script.old.rest.now) }
{
    match opcode {
        b'S' => Some(Rule::Sweep),
        b'C' => Some(Rule::Chain),
        b'P' => Some(Rule::Pass(script.size()?)),
        _ => None,
    }
}

fn read_mark(script: &mut Script) -> Option<bool>
    ensures { length script.new.rest.now ≤ length script.old.rest.now }
{
    match script.byte()? {
        0 => Some(false),
        1 => Some(true),
        _ => None,
    }
}

fn read_end(script: &mut Script) -> Option<End>
    ensures { length script.new.rest.now ≤ length script.old.rest.now }
{
    End::try_from(u64::from(script.byte()?)).ok()
}

fn read_work(script: &mut Script) -> Option<Work>
    ensures { length script.new.rest.now ≤ length script.old.rest.now }
{
    let n = script.size()?;
    let limit = script.size()?;
    let place = script.size()?;
    let mark = read_mark(script)?;
    let end = read_end(script)?;
    let rows = script.rows()?;
    Some(Work::new(n, Table { rows }, limit, place, mark, end))
}
