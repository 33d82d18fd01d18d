// The first round of a table: a search over work states that relies on what the filter promises, and on nothing inside it.
#![tactic(auto)]

mod leaf;
mod node;
mod outcome;
mod search;

ghost use Rattle.std.specs.Prelude.{◌≡◌};
ghost use Rattle.finder.specs.Call.{first_call, first_list};

use circuit::{Answer, Work};
pub use outcome::{Outcome, Sought};
use search::Finder;

// The round whose list of next stations comes first, within a budget of nodes. The list is written only where one is found.
pub fn first_round(work: Work, budget: u32, list: &mut [u8]) -> Sought
    ensures { (result ≡ first_call work budget list.old) × (list.new ≡ first_list work budget list.old) }
{
    if work.is_bad() {
        return Sought::refused(Answer::BadWork);
    }
    if list.len() != work.n {
        return Sought::refused(Answer::WrongLength);
    }
    let mut rows = work.table.rows;
    let mut finder = Finder {
        n: work.n,
        limit: work.limit,
        left: budget,
        spare: [0u64; 64],
        list,
    };
    let outcome = finder.descend(&mut rows, false, work.n);
    Sought {
        answer: Answer::Taken,
        outcome,
        nodes: budget - finder.left,
    }
}
