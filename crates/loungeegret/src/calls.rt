// The rules called by hand and the run, for other languages.
ghost use Rattle.filter.specs.Calls.{hand_call, sweep_call, chain_call, pass_call, run_call};
ghost use Rattle.loungeegret.specs.Words.{loaded};
ghost use Rattle.loungeegret.specs.Results.{CallResult, RunResult};

use crate::words::{Loaded, NO_STATE, STATE_WORDS, hand_back};
use circuit::Answer;
use filter::Rule;

// A rule called by hand.
fn call(state: &mut [u64], rule: Rule, removed: &mut u32) -> u32
    ensures { CallResult (hand_call (loaded state.old) rule) state.old state.new removed.old removed.new result }
{
    let Some(state) = state.first_chunk_mut::<STATE_WORDS>() else {
        return NO_STATE;
    };
    let Some(mut work) = Loaded::of(state) else {
        *removed = 0;
        return Answer::BadWork.number();
    };
    let called = filter::call_in(&mut work.rows, work.n, work.limit, work.at, rule);
    *removed = called.removed;
    hand_back(state, &work.rows, called.answer, called.at, called.removed)
}

#[unsafe(no_mangle)]
pub extern "C" fn loungeegret_sweep(state: &mut [u64], removed: &mut u32) -> u32
    ensures { CallResult (sweep_call (loaded state.old)) state.old state.new removed.old removed.new result }
{
    call(state, Rule::Sweep, removed)
}

#[unsafe(no_mangle)]
pub extern "C" fn loungeegret_chain(state: &mut [u64], removed: &mut u32) -> u32
    ensures { CallResult (chain_call (loaded state.old)) state.old state.new removed.old removed.new result }
{
    call(state, Rule::Chain, removed)
}

// The seed is a station's number, from 1.
#[unsafe(no_mangle)]
pub extern "C" fn loungeegret_pass(state: &mut [u64], seed: usize, removed: &mut u32) -> u32
    ensures { CallResult (pass_call (loaded state.old) seed) state.old state.new removed.old removed.new result }
{
    call(state, Rule::Pass(seed), removed)
}

#[unsafe(no_mangle)]
pub extern "C" fn loungeegret_run(
    state: &mut [u64],
    budget: u32,
    steps: &mut u32,
    removed: &mut u32,
) -> u32
    ensures { RunResult (run_call (loaded state.old) budget) state.old state.new steps.old steps.new removed.old removed.new result }
{
    let Some(state) = state.first_chunk_mut::<STATE_WORDS>() else {
        return NO_STATE;
    };
    let Some(mut work) = Loaded::of(state) else {
        *steps = 0;
        *removed = 0;
        return Answer::BadWork.number();
    };
    let ran = filter::run_in(&mut work.rows, work.n, work.limit, work.at, budget);
    *steps = ran.steps;
    *removed = ran.removed;
    hand_back(state, &work.rows, ran.answer, ran.at, ran.removed)
}
