// The work state.
ghost use Rattle.std.specs.Prelude.{◌≡◌, Bool, ◌≤◌};
ghost use Rattle.circuit.specs.declared.card.End.{End};
ghost use Rattle.circuit.specs.State.{state, blank, fresh, moved, last_place, bad};

use crate::card::End;
use crate::table::{Table, stray};

#[derive(Clone, Copy, Debug, PartialEq, Eq)]
pub struct Work {
    pub n: usize,
    pub table: Table,
    pub limit: usize,
    pub place: usize,
    pub mark: bool,
    pub end: End,
}

impl Work {
    // The smallest and the largest separator limit.
    pub const LIMIT_MIN: usize = 1;

    pub const LIMIT_MAX: usize = 64;

    // Every work state is put together here.
    pub fn new(n: usize, table: Table, limit: usize, place: usize, mark: bool, end: End) -> Work
        ensures { result ≡ state n table.rows limit place mark end }
    {
        Work {
            n,
            table,
            limit,
            place,
            mark,
            end,
        }
    }

    // What a refused opening hands back.
    pub fn blank() -> Work
        ensures { result ≡ blank }
    {
        Work::new(0, Table { rows: [0; 64] }, 0, 0, false, End::Open)
    }

    // What a taken opening hands back.
    pub fn fresh(n: usize, table: Table, limit: usize) -> Work
        ensures { result ≡ fresh n table.rows limit }
    {
        Work::new(n, table, limit, 0, false, End::Open)
    }

    // The state after a call: n and the limit stay.
    pub fn moved(self, table: Table, place: usize, mark: bool, end: End) -> Work
        ensures { result ≡ moved self table.rows place mark end }
    {
        Work::new(self.n, table, self.limit, place, mark, end)
    }

    // The last place of the cycle.
    pub fn last_place(n: usize) -> usize
        requires { n ≤ 64 }
        ensures { result ≡ last_place n }
    {
        n + 1
    }

    // Is it a bad work state (7)?
    pub fn is_bad(self) -> bool
        ensures { result ≡ bad self }
    {
        is_bad_state(&self.table.rows, self.n, self.limit, self.place)
    }
}

// The same of a state that lies in parts: mark and end say nothing of it.
// By hand, no struct: C lends the parts, and a Work would be a copy of its rows.
pub fn is_bad_state(rows: &[u64; 64], n: usize, limit: usize, place: usize) -> bool
    ensures { (mark : Bool) (end : End) → result ≡ bad (state n rows.now limit place mark end) }
{
    if bitset::outside(Table::MIN, Table::MAX, n) {
        return true;
    }
    stray(rows, n)
        | bitset::outside(Work::LIMIT_MIN, Work::LIMIT_MAX, limit)
        | (Work::last_place(n) < place)
}
