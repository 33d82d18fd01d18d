// A command played: its call is made, its answer printed, and the state after it handed back.
ghost use Rattle.std.specs.Prelude.{◌≡◌};
ghost use Rattle.filter.specs.Calls.{hand_call};
ghost use Rattle.preview.specs.Call.{preview_call};

use crate::answer::{
    print_called, print_checked, print_cut, print_filled, print_first, print_opened,
    print_previewed, print_ran, print_work,
};
use crate::command::{Command, REPORT, SHEET};
use crate::line::print_line;
use crate::room::Room;
use crate::shown::Hex;
use circuit::Work;
use filter::{Called, Rule};
use preview::Previewed;
use std::io;

// Room for a list of the finder whose length takes one byte.
const LIST: usize = 256;

// The whole buffer is printed, so that a byte past what is filled that has changed is seen.
fn play_report(rt: &impl Print, work: Work, room: Room<REPORT>) -> io::Result<()> {
    let mut buf = [b'.'; REPORT];
    let buf = &mut buf[..room.len];
    print_filled(rt, "report", report::report(work, buf))?;
    rt.write_all(buf)?;
    rt.write_all(b"\n")
}

// The whole buffer again.
fn play_write(rt: &impl Print, work: Work, room: Room<SHEET>) -> io::Result<()> {
    let mut buf = [b'.'; SHEET];
    let buf = &mut buf[..room.len];
    print_filled(rt, "write", sheet::write(work, buf))?;
    print_line(rt, Hex(buf))
}

// The whole list is printed, so that a byte that has changed where none is found is seen.
fn play_first(rt: &impl Print, work: Work, budget: u32, len: u8) -> io::Result<()> {
    let mut list = [b'.'; LIST];
    let list = &mut list[..usize::from(len)];
    print_first(rt, finder::first_round(work, budget, list))?;
    print_line(rt, Hex(list))
}

// Each rule and each preview by its own function, so that scripts reach these too.
fn by_hand(work: Work, rule: Rule) -> Called
    ensures { result ≡ hand_call work rule }
{
    match rule {
        Rule::Sweep => filter::sweep(work),
        Rule::Chain => filter::chain(work),
        Rule::Pass(seed) => filter::pass(work, seed),
    }
}

fn previewed(work: Work, rule: Rule) -> Previewed
    ensures { result ≡ preview_call work rule }
{
    match rule {
        Rule::Sweep => preview::preview_sweep(work),
        Rule::Chain => preview::preview_chain(work),
        Rule::Pass(seed) => preview::preview_pass(work, seed),
    }
}

pub fn play(rt: &impl Print, command: Command, work: Work) -> io::Result<Work> {
    match command {
        Command::Open { limit, sheet } => print_opened(rt, sheet::open(sheet, limit)),
        Command::Set(work) => print_work(rt, work),
        Command::Call(rule) => print_called(rt, rule, by_hand(work, rule)),
        Command::Preview(rule) => print_previewed(rt, previewed(work, rule)),
        Command::Cut(must) => print_cut(rt, cut::cut(work, must)),
        Command::Run(budget) => print_ran(rt, filter::run(work, budget)),
        Command::Check(list) => {
            print_checked(rt, work.check_list(list))?;
            Ok(work)
        }
        Command::Report(room) => {
            play_report(rt, work, room)?;
            Ok(work)
        }
        Command::Write(room) => {
            play_write(rt, work, room)?;
            Ok(work)
        }
        Command::First { budget, len } => {
            play_first(rt, work, budget, len)?;
            Ok(work)
        }
    }
}
