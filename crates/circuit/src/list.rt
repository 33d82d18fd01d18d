// The list check.
ghost use Rattle.std.specs.Prelude.{Bool, ◌≡◌, ◌≤◌, ◌<◌, length};
ghost use Rattle.bitset.specs.Tests.{Decides};
ghost use Rattle.circuit.specs.declared.card.End.{End};
ghost use Rattle.circuit.specs.State.{state};
ghost use Rattle.circuit.specs.Check.{choice_of, Numbers, is_list, check_call};
ghost use Rattle.circuit.specs.inner.Lists.{good_entry, good_entries, Returns};

use crate::card::Answer;
use crate::state::{Work, is_bad_state};

// What the list check hands back.
// By hand, no Result: `check_call` of specs/Check gives both fields of a refusal too.
#[derive(Clone, Copy, Debug, PartialEq, Eq)]
pub struct Checked {
    pub answer: Answer,
    pub yes: bool,
}

impl Work {
    // The list check: are the n numbers of the list a round, and does each of its legs stand?
    pub fn check_list(self, list: &[u8]) -> Checked
        ensures { result ≡ check_call self list.now }
    {
        check_list_in(&self.table.rows, self.n, self.limit, self.place, list)
    }
}

// The same on a state that lies in parts: mark and end say nothing of it.
// By hand, no struct: C lends the parts, and a Work would be a copy of its rows.
pub fn check_list_in(rows: &[u64; 64], n: usize, limit: usize, place: usize, list: &[u8]) -> Checked
    ensures { (mark : Bool) (end : End) → result ≡ check_call (state n rows.now limit place mark end) list.now }
{
    if is_bad_state(rows, n, limit, place) {
        return Checked {
            answer: Answer::BadWork,
            yes: false,
        };
    }
    let other = list.len() != n;
    if other {
        return Checked {
            answer: Answer::WrongLength,
            yes: false,
        };
    }
    Checked {
        answer: Answer::Taken,
        yes: is_list(rows, n, list),
    }
}

// Good entries are legs of a choice of one next station for each; whether they are a round, the walk tells.
fn is_list(rows: &[u64; 64], n: usize, list: &[u8]) -> bool
    requires { (0 < n) × (n ≤ 64) × (length list.now ≡ n) }
    ensures { result ≡ is_list n rows.now list.now }
{
    if good_entries(rows, n, list) {
        return returns_last(n, list);
    }
    false
}

// Each entry, with the row of its station.
fn good_entries(rows: &[u64; 64], n: usize, list: &[u8]) -> bool
    requires { (n ≤ 64) × (length list.now ≡ n) }
    ensures { result ≡ good_entries n rows.now list.now }
{
    let mut good = true;
    for (i, entry) in list.iter().enumerate() {
        good = good_entry(n, rows[i], *entry as usize) & good;
    }
    good
}

// Is the entry the number of a station, and does the leg to it stand?
fn good_entry(n: usize, legs: u64, entry: usize) -> bool
    requires { n ≤ 64 }
    ensures { result ≡ good_entry n legs entry }
{
    if bitset::outside(1, n, entry) {
        return false;
    }
    bitset::contains(legs, entry - 1)
}

// Driving from the first station, does it come again with the n-th move and not before? A tour that leaves a station out
// comes back too early.
fn returns_last(n: usize, list: &[u8]) -> bool
    requires { (0 < n) × Numbers n list.now }
    ensures { Decides result (Returns n (choice_of list.now)) }
{
    let mut station = 0usize;
    for moves in 0..n {
        station = list[station] as usize - 1;
        if station == 0 {
            return moves + 1 == n;
        }
    }
    false
}
