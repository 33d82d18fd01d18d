// The cut step, for other languages.
ghost use Rattle.std.specs.Prelude.{take};
ghost use Rattle.cut.specs.Call.{cut_call};
ghost use Rattle.loungeegret.specs.Words.{loaded};
ghost use Rattle.loungeegret.specs.Results.{CutResult};

use crate::words::{Loaded, NO_STATE, STATE_WORDS, hand_back};
use circuit::Answer;

// The must-drive roads lie in 64 words in the form of the table; those that are handed back go to the same words.
#[unsafe(no_mangle)]
pub extern "C" fn loungeegret_cut(state: &mut [u64], must: &mut [u64], removed: &mut u32) -> u32
    ensures { CutResult (cut_call (loaded state.old) (take 64 must.old)) state.old state.new must.old must.new removed.old removed.new result }
{
    let Some(state) = state.first_chunk_mut::<STATE_WORDS>() else {
        return NO_STATE;
    };
    let Some(must) = must.first_chunk_mut::<64>() else {
        return NO_STATE;
    };
    let Some(mut work) = Loaded::of(state) else {
        *removed = 0;
        return Answer::BadWork.number();
    };
    let called = cut::cut_in(&mut work.rows, must, work.n, work.limit, work.at);
    *removed = called.removed;
    hand_back(state, &work.rows, called.answer, called.at, called.removed)
}
