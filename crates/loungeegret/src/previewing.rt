// The previews, for other languages.
ghost use Rattle.std.specs.Prelude.{◌≡◌, cond};
ghost use Rattle.circuit.specs.Card.{end_code};
ghost use Rattle.preview.specs.Call.{preview_call, sweep_preview, chain_preview, pass_preview};
ghost use Rattle.loungeegret.specs.Words.{loaded};
ghost use Rattle.loungeegret.specs.Results.{refuses, PreviewResult};

use crate::words::{END_NUMBER, NO_STATE, STATE_WORDS, load};
use circuit::{Answer, End};
use filter::Rule;

// The word of the end that would follow; of a refused preview that of the given end, which may be out of range.
// By hand: the number is asked, as `refuses` of specs/Results asks it.
fn end_word(answer: Answer, given: u64, end: End) -> u64
    ensures { result ≡ cond (refuses answer) given (end_code end) }
{
    if answer.number() == 0 {
        return end.code();
    }
    given
}

// A rule that is called by hand, shown first. The legs that would go are written to 64 words in the form of the table, and the code of the
// end that would follow through `end`.
fn preview(state: &[u64], rule: Rule, legs: &mut [u64], end: &mut u64) -> u32
    ensures { PreviewResult (preview_call (loaded state.now) rule) state.now legs.old legs.new end.old end.new result }
{
    let Some(state) = state.first_chunk::<STATE_WORDS>() else {
        return NO_STATE;
    };
    let Some(legs) = legs.first_chunk_mut::<64>() else {
        return NO_STATE;
    };
    let shown = preview::preview(load(state), rule);
    legs.copy_from_slice(&shown.legs.rows);
    *end = end_word(shown.answer, state[END_NUMBER], shown.end);
    shown.answer.number()
}

#[unsafe(no_mangle)]
pub extern "C" fn loungeegret_preview_sweep(state: &[u64], legs: &mut [u64], end: &mut u64) -> u32
    ensures { PreviewResult (sweep_preview (loaded state.now)) state.now legs.old legs.new end.old end.new result }
{
    preview(state, Rule::Sweep, legs, end)
}

#[unsafe(no_mangle)]
pub extern "C" fn loungeegret_preview_chain(state: &[u64], legs: &mut [u64], end: &mut u64) -> u32
    ensures { PreviewResult (chain_preview (loaded state.now)) state.now legs.old legs.new end.old end.new result }
{
    preview(state, Rule::Chain, legs, end)
}

// The seed is a station's number, from 1.
#[unsafe(no_mangle)]
pub extern "C" fn loungeegret_preview_pass(
    state: &[u64],
    seed: usize,
    legs: &mut [u64],
    end: &mut u64,
) -> u32
    ensures { PreviewResult (pass_preview (loaded state.now) seed) state.now legs.old legs.new end.old end.new result }
{
    preview(state, Rule::Pass(seed), legs, end)
}
