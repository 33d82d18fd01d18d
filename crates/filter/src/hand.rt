// The calls by hand.
ghost use Rattle.std.specs.Prelude.{◌≡◌, false, ℕ, ◌≤◌, length};
ghost use Rattle.circuit.specs.Legs.{Subtable};
ghost use Rattle.circuit.specs.State.{is_none, stray, Good};
ghost use Rattle.filter.specs.Rule.{stray_seed};
ghost use Rattle.filter.specs.Calls.{verdict, by_hand, hand_call, sweep_call, chain_call, pass_call};
ghost use Rattle.filter.specs.inner.Steps.{HandMoved, state_at, called_as};

use crate::counting::removals;
use crate::cycle::Cursor;
use crate::rule::{Rule, take};
use circuit::{Answer, End, Work};

// What a rule called by hand hands back.
// By hand, no Result: a refusal hands the state back too (`unchanged` of specs/Calls), and a list of calls goes on from it (demand 3).
#[derive(Clone, Copy, Debug, PartialEq, Eq)]
pub struct Called {
    pub answer: Answer,
    pub work: Work,
    pub removed: u32,
}

// What a rule called by hand on lent rows hands back beside them. Rows, n, limit and cursor stay apart: so `call_in` and `by_verdict` promise, and C lends the rows.
// By hand, no Result: by the promise of `call_in` (`called_as`) a refusal gives the cursor too.
#[derive(Clone, Copy, Debug, PartialEq, Eq)]
pub struct CalledIn {
    pub answer: Answer,
    pub at: Cursor,
    pub removed: u32,
}

impl CalledIn {
    // Place, mark and end as they were, and no removals.
    pub fn unmoved(answer: Answer, at: Cursor) -> CalledIn
        ensures { result ≡ record { answer = answer; at = at; removed = 0 } }
    {
        CalledIn {
            answer,
            at,
            removed: 0,
        }
    }
}

// Where a rule called by hand takes a state.
fn moved_by(at: Cursor, none: bool, removed: u32) -> Cursor
    ensures { HandMoved at none removed result }
{
    if none {
        return Cursor {
            end: End::None,
            ..at
        };
    }
    if 0 < removed {
        return Cursor {
            place: 0,
            mark: false,
            end: End::Open,
        };
    }
    at
}

// What the verdict of a step called by hand makes of a good state whose end is not none: the rows before it, and those that it leaves.
// `struck` is false only where they are the same. A step of another crate ends by this too.
pub fn by_verdict(
    before: &[u64; 64],
    left: &[u64; 64],
    n: usize,
    at: Cursor,
    none: bool,
    struck: bool,
) -> CalledIn
    requires { (n ≤ 64) × (stray n before.now ≡ false) × Subtable left.now before.now
        × (struck ≡ false → left.now ≡ before.now) × (is_none at.end ≡ false) }
    ensures { (limit : ℕ) → called_as n limit left.now result ≡ by_hand (state_at n before.now limit at) (record { none = none; left = left.now }) }
{
    let removed = removals(struck, before, left, n);
    CalledIn {
        answer: Answer::Taken,
        at: moved_by(at, none, removed),
        removed,
    }
}

// A rule called by hand on a good state whose end is not none.
fn by_hand(rows: &mut [u64; 64], n: usize, limit: usize, at: Cursor, rule: Rule) -> CalledIn
    requires { Good (state_at n rows.old limit at) × (stray_seed n rule ≡ false) × (is_none at.end ≡ false) }
    ensures { called_as n limit rows.new result ≡ by_hand (state_at n rows.old limit at) (verdict (state_at n rows.old limit at) rule) }
{
    let before = *rows;
    let taken = take(rule, rows, n, limit);
    by_verdict(&before, rows, n, at, taken.none, taken.struck)
}

// A rule called by hand on lent rows: the checks, and then its verdict on them.
pub fn call_in(rows: &mut [u64; 64], n: usize, limit: usize, at: Cursor, rule: Rule) -> CalledIn
    ensures { (called_as n limit rows.new result ≡ hand_call (state_at n rows.old limit at) rule)
        × (result.removed ≡ 0 → rows.new ≡ rows.old) }
{
    if circuit::is_bad_state(rows, n, limit, at.place) {
        return CalledIn::unmoved(Answer::BadWork, at);
    }
    if rule.has_stray_seed(n) {
        return CalledIn::unmoved(Answer::StraySeed, at);
    }
    if at.end.is_none() {
        return CalledIn::unmoved(Answer::Taken, at);
    }
    by_hand(rows, n, limit, at, rule)
}

// A rule called by hand.
pub fn call(work: Work, rule: Rule) -> Called
    ensures { result ≡ hand_call work rule }
{
    let mut rows = work.table.rows;
    let called = call_in(&mut rows, work.n, work.limit, Cursor::of(work), rule);
    Called {
        answer: called.answer,
        work: called.at.state(work, rows),
        removed: called.removed,
    }
}

// The sweep by hand.
pub fn sweep(work: Work) -> Called
    ensures { result ≡ sweep_call work }
{
    call(work, Rule::Sweep)
}

// The chain step by hand.
pub fn chain(work: Work) -> Called
    ensures { result ≡ chain_call work }
{
    call(work, Rule::Chain)
}

// The pass by hand; the seed is a station's number, from 1.
pub fn pass(work: Work, seed: usize) -> Called
    ensures { result ≡ pass_call work seed }
{
    call(work, Rule::Pass(seed))
}
