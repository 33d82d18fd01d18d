// The lines that answer each command. The state follows where the command may have changed it, and is handed back.
use crate::line::print_line;
use crate::shown::{Legs, Rows};
use circuit::{Checked, Filled, Work};
use cut::CutCalled;
use filter::{Called, Ran, Rule};
use finder::Sought;
use preview::Previewed;
use sheet::Opened;
use std::io;

fn print_state(rt: &impl Print, work: Work) -> io::Result<Work> {
    print_line(
        rt,
        format_args!(
            "state n {} limit {} place {} mark {} end {}{}",
            work.n,
            work.limit,
            work.place,
            u8::from(work.mark),
            work.end,
            Legs(&work.table),
        ),
    )?;
    Ok(work)
}

pub fn print_opened(rt: &impl Print, opened: Opened) -> io::Result<Work> {
    print_line(
        rt,
        format_args!("open {} at {}", opened.answer.number(), opened.at),
    )?;
    print_state(rt, opened.work)
}

pub fn print_work(rt: &impl Print, work: Work) -> io::Result<Work> {
    rt.write_all(b"work\n")?;
    print_state(rt, work)
}

pub fn print_called(rt: &impl Print, rule: Rule, called: Called) -> io::Result<Work> {
    let name = match rule {
        Rule::Sweep => "sweep",
        Rule::Chain => "chain",
        Rule::Pass(_) => "pass",
    };
    print_line(
        rt,
        format_args!(
            "{name} {} removed {}",
            called.answer.number(),
            called.removed
        ),
    )?;
    print_state(rt, called.work)
}

// A preview: the end that would follow and the legs that would go, and the state that it hands back.
pub fn print_previewed(rt: &impl Print, previewed: Previewed) -> io::Result<Work> {
    print_line(
        rt,
        format_args!(
            "preview {} end {}{}",
            previewed.answer.number(),
            previewed.end,
            Legs(&previewed.legs),
        ),
    )?;
    print_state(rt, previewed.work)
}

// A cut step, with the must-drive table that it hands back.
pub fn print_cut(rt: &impl Print, called: CutCalled) -> io::Result<Work> {
    print_line(
        rt,
        format_args!("cut {} removed {}", called.answer.number(), called.removed),
    )?;
    let work = print_state(rt, called.work)?;
    print_line(rt, format_args!("must{}", Rows(&called.must)))?;
    Ok(work)
}

pub fn print_ran(rt: &impl Print, ran: Ran) -> io::Result<Work> {
    print_line(
        rt,
        format_args!(
            "run {} steps {} removed {}",
            ran.answer.number(),
            ran.steps,
            ran.removed
        ),
    )?;
    print_state(rt, ran.work)
}

pub fn print_checked(rt: &impl Print, checked: Checked) -> io::Result<()> {
    let word = if checked.yes { "yes" } else { "no" };
    print_line(rt, format_args!("list {} {word}", checked.answer.number()))
}

// A call that fills a buffer, by its name.
pub fn print_filled(rt: &impl Print, name: &str, filled: Filled) -> io::Result<()> {
    print_line(
        rt,
        format_args!("{name} {} length {}", filled.answer.number(), filled.len),
    )
}

pub fn print_first(rt: &impl Print, sought: Sought) -> io::Result<()> {
    print_line(
        rt,
        format_args!(
            "first {} outcome {} nodes {}",
            sought.answer.number(),
            sought.outcome.code(),
            sought.nodes,
        ),
    )
}
