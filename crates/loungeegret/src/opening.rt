// Opening a sheet, for other languages.
ghost use Rattle.sheet.specs.Open.{open_call};
ghost use Rattle.loungeegret.specs.Results.{OpenResult};

use crate::words::{NO_STATE, STATE_WORDS, store};

// The state goes to the lent words in each case: a refused opening hands back the blank one.
#[unsafe(no_mangle)]
pub extern "C" fn loungeegret_open(
    sheet: &[u8],
    limit: usize,
    state: &mut [u64],
    place: &mut usize,
) -> u32
    ensures { OpenResult (open_call sheet.now limit) state.old state.new place.old place.new result }
{
    let Some(state) = state.first_chunk_mut::<STATE_WORDS>() else {
        return NO_STATE;
    };
    let opened = sheet::open(sheet, limit);
    store(state, opened.work);
    *place = opened.at;
    opened.answer.number()
}
