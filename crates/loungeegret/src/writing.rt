// The calls that fill a lent buffer, for other languages.
ghost use Rattle.std.specs.Prelude.{◌≡◌, ◌≤◌, length};
ghost use Rattle.circuit.specs.Card.{number};
ghost use Rattle.sheet.specs.Write.{write_call, write_bytes};
ghost use Rattle.report.specs.Lines.{report_call, report_bytes};
ghost use Rattle.output.specs.Program.{program_text};
ghost use Rattle.loungeegret.specs.Words.{state_words, loaded};
ghost use Rattle.loungeegret.specs.Results.{FillResult, PrintResult};

use crate::words::{NO_STATE, STATE_WORDS, load};
use circuit::Filled;

// The number of a call that filled a buffer; through `length` goes how many bytes it is.
fn filled_number(filled: Filled, length: &mut usize) -> u32
    ensures { (result ≡ number filled.answer) × (length.new ≡ filled.len) }
{
    *length = filled.len;
    filled.answer.number()
}

// The state is loaded in the call, so that it is not copied once more. The two differ in the call alone: over a closure the contract would
// have to say what each call ensures, so it is no plainer.
fn put_report(state: &[u64; STATE_WORDS], buf: &mut [u8]) -> Filled
    ensures { (result ≡ report_call (loaded state.now) buf.old) × (buf.new ≡ report_bytes (loaded state.now) buf.old) }
{
    report::report(load(state), buf)
}

fn put_sheet(state: &[u64; STATE_WORDS], buf: &mut [u8]) -> Filled
    ensures { (result ≡ write_call (loaded state.now) buf.old) × (buf.new ≡ write_bytes (loaded state.now) buf.old) }
{
    sheet::write(load(state), buf)
}

// Writes the station lines to the start of the buffer.
#[unsafe(no_mangle)]
pub extern "C" fn loungeegret_report(state: &[u64], buf: &mut [u8], length: &mut usize) -> u32
    ensures { FillResult (report_call (loaded state.now) buf.old) (report_bytes (loaded state.now) buf.old) state.now buf.old buf.new length.old length.new result }
{
    let Some(state) = state.first_chunk::<STATE_WORDS>() else {
        return NO_STATE;
    };
    filled_number(put_report(state, buf), length)
}

// Writes the sheet of what is left to the start of the buffer.
#[unsafe(no_mangle)]
pub extern "C" fn loungeegret_write(state: &[u64], buf: &mut [u8], length: &mut usize) -> u32
    ensures { FillResult (write_call (loaded state.now) buf.old) (write_bytes (loaded state.now) buf.old) state.now buf.old buf.new length.old length.new result }
{
    let Some(state) = state.first_chunk::<STATE_WORDS>() else {
        return NO_STATE;
    };
    filled_number(put_sheet(state, buf), length)
}

// Writes what the program prints for the sheet to the start of the buffer.
#[unsafe(no_mangle)]
pub extern "C" fn loungeegret_print(sheet: &[u8], buf: &mut [u8], length: &mut usize) -> u32
    ensures { PrintResult (program_text sheet.now) buf.old buf.new length.new result }
{
    filled_number(output::print(sheet, buf), length)
}
