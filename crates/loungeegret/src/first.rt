// The search for the first round, for other languages.
ghost use Rattle.finder.specs.Call.{first_call, first_list};
ghost use Rattle.loungeegret.specs.Words.{loaded};
ghost use Rattle.loungeegret.specs.Results.{FirstResult};

use crate::words::{NO_STATE, STATE_WORDS, load};

// The first round within a budget of nodes: where it is found its list goes to the lent bytes. The outcome's code and the number of nodes
// entered are written through the pointers.
#[unsafe(no_mangle)]
pub extern "C" fn loungeegret_first_round(
    state: &[u64],
    budget: u32,
    list: &mut [u8],
    outcome: &mut u32,
    nodes: &mut u32,
) -> u32
    ensures { FirstResult (first_call (loaded state.now) budget list.old) (first_list (loaded state.now) budget list.old) state.now list.old list.new outcome.old outcome.new nodes.old nodes.new result }
{
    let Some(state) = state.first_chunk::<STATE_WORDS>() else {
        return NO_STATE;
    };
    let sought = finder::first_round(load(state), budget, list);
    *outcome = sought.outcome.code();
    *nodes = sought.nodes;
    sought.answer.number()
}
