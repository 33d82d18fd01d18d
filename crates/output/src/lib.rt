// The program's text: the bytes of a sheet in, the bytes that are printed out.
#![tactic(auto)]

ghost use Rattle.std.specs.Prelude.{◌≡◌, ◌++◌, ◌≤◌, length};
ghost use Rattle.writer.specs.Text.{ascii, decimal};
ghost use Rattle.writer.specs.Lent.{written};
ghost use Rattle.writer.specs.inner.Writer.{Wrote, HasRoom, Appended};
ghost use Rattle.circuit.specs.Card.{number};
ghost use Rattle.circuit.specs.State.{Good};
ghost use Rattle.circuit.specs.Fill.{filled};
ghost use Rattle.circuit.specs.inner.Fills.{Fills};
ghost use Rattle.report.specs.Lines.{lines_from};
ghost use Rattle.output.specs.Program.{opened_line, ran_line, taken_text, refused_line, program_text};
ghost use Rattle.output.specs.inner.Prints.{shown as Prints·shown};

use circuit::{Answer, Filled, Work};
use filter::Ran;
use report::{lines_len, put_lines};
use writer::Writer;

// What the program opens with.
const LIMIT: usize = 64;

// Room for the lines before the station lines.
const HEAD: usize = 128;

// Two words, each with a number after it.
fn put_fields(out: &mut Writer, first: &[u8], x: u64, second: &[u8], y: u64)
    requires { HasRoom (first.now ++ decimal x ++ second.now ++ decimal y) out.old }
    ensures { Appended (first.now ++ decimal x ++ second.now ++ decimal y) out.old out.new }
{
    out.text(first);
    out.number(x);
    out.text(second);
    out.number(y);
}

// Line 1: stations and legs as opened.
fn put_opened(out: &mut Writer, work: &Work)
    requires { Good work.now × HasRoom (opened_line work.now) out.old }
    ensures { Appended (opened_line work.now) out.old out.new }
{
    let legs = circuit::legs(&work.table.rows) as u64;
    put_fields(out, b"stations ", work.n as u64, b" legs ", legs);
    out.byte(b'\n');
}

// Line 2: steps, legs removed, end.
fn put_ran(out: &mut Writer, ran: &Ran)
    requires { HasRoom (ran_line ran.now) out.old }
    ensures { Appended (ran_line ran.now) out.old out.new }
{
    put_fields(
        out,
        b"steps ",
        ran.steps as u64,
        b" removed ",
        ran.removed as u64,
    );
    out.text(b" end ");
    out.text(ran.work.end.word().as_bytes());
    out.byte(b'\n');
}

// How many stations have a line: none where the end is none.
fn shown(work: &Work) -> usize
    ensures { result ≡ Prints·shown work.now }
{
    if work.end.is_none() { 0 } else { work.n }
}

// The head at the start of the buffer, and how many bytes that is: `put_lines` is lent what is left.
fn put_head(buf: &mut [u8], head: &[u8]) -> usize
    requires { length head.now ≤ length buf.old }
    ensures { Wrote head.now buf.old buf.new result }
{
    let mut out = Writer::new(buf);
    out.text(head);
    out.len()
}

// The head, and the lines of n stations after it. A refusal changes no byte, so the length is known first.
fn print_lines(head: &[u8], n: usize, rows: &[u64; 64], buf: &mut [u8]) -> Filled
    requires { (n ≤ 64) × (length head.now ≤ 128) }
    ensures { Fills (head.now ++ lines_from n 0 rows.now) buf.old buf.new result }
{
    if buf.len() < head.len() + lines_len(n, rows) {
        return Filled {
            answer: Answer::NoRoom,
            len: 0,
        };
    }
    let at = put_head(buf, head);
    let len = at + put_lines(&mut buf[at..], n, rows);
    Filled {
        answer: Answer::Taken,
        len,
    }
}

fn print_refused(refusal: Answer, at: usize, buf: &mut [u8]) -> Filled
    ensures { Fills (refused_line (number refusal) at) buf.old buf.new result }
{
    let number = refusal.number();
    let mut head = [0u8; HEAD];
    let mut out = Writer::new(&mut head);
    put_fields(&mut out, b"refused ", number as u64, b" at ", at as u64);
    out.byte(b'\n');
    print_lines(out.written(), 0, &[0; 64], buf)
}

fn print_taken(work: Work, buf: &mut [u8]) -> Filled
    requires { Good work }
    ensures { Fills (taken_text work) buf.old buf.new result }
{
    let ran = filter::run(work, filter::FULL_BUDGET);
    let mut head = [0u8; HEAD];
    let mut out = Writer::new(&mut head);
    put_opened(&mut out, &work);
    put_ran(&mut out, &ran);
    print_lines(out.written(), shown(&ran.work), &ran.work.table.rows, buf)
}

// What the program prints for the sheet, from the start of the buffer.
pub fn print(sheet: &[u8], buf: &mut [u8]) -> Filled
    ensures { (result ≡ filled (program_text sheet.now) buf.old) × (buf.new ≡ written (program_text sheet.now) buf.old) }
{
    let opened = sheet::open(sheet, LIMIT);
    match opened.answer {
        Answer::Taken => print_taken(opened.work, buf),
        refusal => print_refused(refusal, opened.at, buf),
    }
}
