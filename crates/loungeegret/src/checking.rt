// The list check, for other languages.
ghost use Rattle.circuit.specs.Check.{check_call};
ghost use Rattle.loungeegret.specs.Words.{loaded};
ghost use Rattle.loungeegret.specs.Results.{CheckResult};

use crate::words::{Loaded, NO_STATE, STATE_WORDS};
use circuit::{Answer, check_list_in};

// Writes 1 through `yes` where the list is a round whose legs all stand, and else 0.
#[unsafe(no_mangle)]
pub extern "C" fn loungeegret_check_list(state: &[u64], list: &[u8], yes: &mut u8) -> u32
    ensures { CheckResult (check_call (loaded state.now) list.now) state.now yes.old yes.new result }
{
    let Some(state) = state.first_chunk::<STATE_WORDS>() else {
        return NO_STATE;
    };
    let Some(work) = Loaded::of(state) else {
        *yes = 0;
        return Answer::BadWork.number();
    };
    let checked = check_list_in(&work.rows, work.n, work.limit, work.at.place, list);
    *yes = checked.yes as u8;
    checked.answer.number()
}
