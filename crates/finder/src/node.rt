// A node of the search: its run, and when that can be left out.
ghost use Rattle.std.specs.Prelude.{true, ◌≡◌};
ghost use Rattle.circuit.specs.State.{is_none};
ghost use Rattle.finder.specs.Search.{settled};
ghost use Rattle.finder.specs.inner.Nodes.{Begun, Known, Settles};
ghost use Rattle.finder.specs.inner.Finders.{node_of, Lent};

use crate::search::Finder;
use circuit::End;
use filter::{Cursor, Rule};

// Where every node starts.
const START: Cursor = Cursor {
    place: 0,
    mark: false,
    end: End::Open,
};

// Sweeps and chain steps in turn, at most this often.
const TURNS: usize = 64;

impl Finder<'_> {
    // Do sweeps and chain steps alone come to none? Then the run ends none too. They are much quicker than a run, and one-sided: where they do
    // not, the run may end none all the same. They strike in the spare table.
    fn comes_to_none(&mut self, rows: &[u64; 64]) -> bool
        requires { Begun (node_of self.old rows.now) }
        ensures same { Lent self.old self.new }
        ensures none { result ≡ true → is_none (settled (node_of self.old rows.now)).end ≡ true }
    {
        self.spare = *rows;
        let mut at = START;
        for _ in 0..TURNS {
            let swept = filter::call_in(&mut self.spare, self.n, self.limit, at, Rule::Sweep);
            let chained = filter::call_in(
                &mut self.spare,
                self.n,
                self.limit,
                swept.at,
                Rule::Chain,
            );
            at = chained.at;
            if at.end.is_none() {
                return true;
            }
            if swept.removed == 0 && chained.removed == 0 {
                return false;
            }
        }
        false
    }

    // Runs the node, and says whether its end is none; otherwise the rows are those that its run leaves. A run that is known to leave the table
    // is not made, and one that is known to end none neither.
    pub(crate) fn settle(&mut self, rows: &mut [u64; 64], known: bool) -> bool
        requires { Begun (node_of self.old rows.old) × Known known (node_of self.old rows.old) }
        ensures same { Lent self.old self.new }
        ensures settles { Settles (node_of self.old rows.old) result rows.new }
    {
        if known {
            return false;
        }
        if self.comes_to_none(rows) {
            return true;
        }
        let ran = filter::run_in(rows, self.n, self.limit, START, filter::FULL_BUDGET);
        ran.at.end.is_none()
    }
}
