// A step shown first: the legs that it would strike and the end that would follow. The step is made on a copy.
#![tactic(auto)]

ghost use Rattle.std.specs.Prelude.{◌≡◌};
ghost use Rattle.preview.specs.Call.{preview_call, sweep_preview, chain_preview, pass_preview};

use circuit::{Answer, End, Table, Work};
use filter::Rule;

// What a preview hands back: the legs that would go, the end that would follow, and the state as it was given.
// By hand, no Result: a refusal hands all of these back too (`preview_call` of specs/Call).
#[derive(Clone, Copy, Debug, PartialEq, Eq)]
pub struct Previewed {
    pub answer: Answer,
    pub work: Work,
    pub legs: Table,
    pub end: End,
}

// The preview of a rule called by hand.
pub fn preview(work: Work, rule: Rule) -> Previewed
    ensures { result ≡ preview_call work rule }
{
    let called = filter::call(work, rule);
    let rows = circuit::difference(&work.table.rows, &called.work.table.rows);
    Previewed {
        answer: called.answer,
        work,
        legs: Table { rows },
        end: called.work.end,
    }
}

// The preview of the sweep.
pub fn preview_sweep(work: Work) -> Previewed
    ensures { result ≡ sweep_preview work }
{
    preview(work, Rule::Sweep)
}

// The preview of the chain step.
pub fn preview_chain(work: Work) -> Previewed
    ensures { result ≡ chain_preview work }
{
    preview(work, Rule::Chain)
}

// The preview of the pass; the seed is a station's number, from 1.
pub fn preview_pass(work: Work, seed: usize) -> Previewed
    ensures { result ≡ pass_preview work seed }
{
    preview(work, Rule::Pass(seed))
}
