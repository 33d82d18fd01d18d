// The cut step on a work state, called by hand: the checks, the verdict on the two tables, the hand rules.
#![tactic(auto)]

ghost use Rattle.std.specs.Prelude.{◌≡◌, true, false};
ghost use Rattle.circuit.specs.State.{is_none, Good};
ghost use Rattle.roads.specs.Cut.{cut, is_two_way, are_roads};
ghost use Rattle.filter.specs.inner.Steps.{state_at};
ghost use Rattle.cut.specs.Call.{cut_by_hand, cut_call};
ghost use Rattle.cut.specs.inner.Parts.{cut_as};

use circuit::{Answer, Work};
use filter::{CalledIn, Cursor};

// What the cut step hands back.
// By hand, no Result: a refusal hands the state and the roads back too (`cut_call` of specs/Call).
#[derive(Clone, Copy, Debug, PartialEq, Eq)]
pub struct CutCalled {
    pub answer: Answer,
    pub work: Work,
    pub must: [u64; 64],
    pub removed: u32,
}

// The cut step on a good state whose end is not none and whose tables have passed the checks.
fn cut_by_hand(
    rows: &mut [u64; 64],
    must: &mut [u64; 64],
    n: usize,
    limit: usize,
    at: Cursor,
) -> CalledIn
    requires { Good (state_at n rows.old limit at) × (is_two_way n rows.old ≡ true) × (are_roads rows.old must.old ≡ true) × (is_none at.end ≡ false) }
    ensures { cut_as n limit rows.new must.new result ≡ cut_by_hand (state_at n rows.old limit at) must.old (cut n rows.old must.old) }
{
    let before = *rows;
    let says = roads::cut(before, *must, n);
    // By way of variables: no proof is made of an array field that is stored straight.
    let left = says.left;
    let driven = says.must;
    *rows = left;
    *must = driven;
    filter::by_verdict(&before, rows, n, at, says.none, true)
}

// The cut step on lent rows and a lent table of must-drive roads.
// By hand: rows, roads, n, limit and cursor stay apart, since C lends the rows and the roads.
pub fn cut_in(
    rows: &mut [u64; 64],
    must: &mut [u64; 64],
    n: usize,
    limit: usize,
    at: Cursor,
) -> CalledIn
    ensures { (cut_as n limit rows.new must.new result ≡ cut_call (state_at n rows.old limit at) must.old)
        × (result.removed ≡ 0 → rows.new ≡ rows.old) }
{
    if circuit::is_bad_state(rows, n, limit, at.place) {
        return CalledIn::unmoved(Answer::BadWork, at);
    }
    if !roads::is_two_way(rows, n) {
        return CalledIn::unmoved(Answer::NotTwoWay, at);
    }
    if !roads::are_roads(rows, must) {
        return CalledIn::unmoved(Answer::StrayRoad, at);
    }
    if at.end.is_none() {
        return CalledIn::unmoved(Answer::Taken, at);
    }
    cut_by_hand(rows, must, n, limit, at)
}

// The cut step by hand.
pub fn cut(work: Work, must: [u64; 64]) -> CutCalled
    ensures { result ≡ cut_call work must }
{
    let mut rows = work.table.rows;
    let mut driven = must;
    let called = cut_in(&mut rows, &mut driven, work.n, work.limit, Cursor::of(work));
    CutCalled {
        answer: called.answer,
        work: called.at.state(work, rows),
        must: driven,
        removed: called.removed,
    }
}
