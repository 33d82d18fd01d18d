// The search: a node, and all that is below it.
ghost use Rattle.std.specs.Prelude.{◌≡◌, ◌≤◌, length};

use crate::outcome::Outcome;
use bitset::Members;

// A search under way: n and the limit of the given state, the budget that is left, a spare table that each node may strike in, and the lent list.
#[derive(Drop)]
pub(crate) struct Finder<'a> {
    pub(crate) n: usize,
    pub(crate) limit: usize,
    pub(crate) left: u32,
    pub(crate) spare: [u64; 64],
    pub(crate) list: &'a mut [u8],
    ghost most: { n ≤ 64 },
    ghost long: { length list.now ≡ n },
}

impl Finder<'_> {
    ghost use Rattle.finder.specs.Search.{search_from};
    ghost use Rattle.finder.specs.inner.Nodes.{Begun, Known};
    ghost use Rattle.finder.specs.inner.Parts.{within};
    ghost use Rattle.finder.specs.inner.Finders.{node_of, Kept, given};

    // The node with these rows, of whose stations the last `undecided` are undecided, and all that is below it. `known`: its run is known to leave
    // its table. A level keeps one table, that of the child it is at.
    pub(crate) fn descend(&mut self, rows: &mut [u64; 64], known: bool, undecided: usize) -> Outcome
        requires { Begun (node_of self.old rows.old) × Known known (node_of self.old rows.old) × (undecided ≤ self.old.n) }
        ensures same { Kept self.old self.new }
        ensures outcome { given result self.new ≡ within self.old.left (search_from undecided (node_of self.old rows.old)) self.old.list.now }
    {
        let spent = self.left == 0;
        if spent {
            return Outcome::UsedUp;
        }
        self.left -= 1;
        if self.settle(rows, known) {
            return Outcome::NoRound;
        }
        if undecided == 0 {
            if self.try_list(rows) {
                return Outcome::Found;
            }
            return Outcome::NoRound;
        }
        let d = self.n - undecided;
        let next = rows[d];
        for k in Members::of(next) {
            let only = 1u64 << k;
            let mut child = *rows;
            child[d] = only;
            let outcome = self.descend(&mut child, next == only, undecided - 1);
            if !outcome.is_no_round() {
                return outcome;
            }
        }
        Outcome::NoRound
    }
}
