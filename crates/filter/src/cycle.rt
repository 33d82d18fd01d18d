// The run: one step after the other, through the cycle of the places.
ghost use Rattle.std.specs.Prelude.{true, false, List, ◌≡◌, ℕ, ◌≤◌};
ghost use Rattle.circuit.specs.State.{last_place, Good};
ghost use Rattle.circuit.specs.Verdict.{leaves};
ghost use Rattle.filter.specs.Rule.{says, rule_at};
ghost use Rattle.filter.specs.Calls.{run_from, run_call};
ghost use Rattle.filter.specs.inner.Steps.{TableLeft, IdleSeeds, Advanced, state_at, ran_as};

use crate::counting::legs_after;
use crate::rule::{Rule, take_on};
use circuit::{Answer, End, Network, Table, Work};
use separator::Taken;

// What a run hands back.
// By hand, no Result: a refusal hands the state back too (`run_call` of specs/Calls), and a list of calls goes on from it (demand 3).
#[derive(Clone, Copy, Debug, PartialEq, Eq)]
pub struct Ran {
    pub answer: Answer,
    pub work: Work,
    pub steps: u32,
    pub removed: u32,
}

// Where a state is in its cycle.
#[derive(Clone, Copy, Debug, PartialEq, Eq)]
pub struct Cursor {
    pub place: usize,
    pub mark: bool,
    pub end: End,
}

impl Cursor {
    // Where the state is.
    pub fn of(work: Work) -> Cursor
        ensures { result ≡ record { place = work.place; mark = work.mark; end = work.end } }
    {
        Cursor {
            place: work.place,
            mark: work.mark,
            end: work.end,
        }
    }

    // The state that was taken there and has these rows: n and the limit stay.
    pub fn state(self, work: Work, rows: [u64; 64]) -> Work
        ensures { result ≡ state_at work.n rows work.limit self }
    {
        work.moved(Table { rows }, self.place, self.mark, self.end)
    }
}

// What a run on lent rows hands back beside them. Rows, n, limit and cursor stay apart: so `run_in` promises, and C lends the rows.
// By hand, no Result: by the promise of `run_in` (`ran_as`) a refusal gives the cursor too.
#[derive(Clone, Copy, Debug, PartialEq, Eq)]
pub struct RanIn {
    pub answer: Answer,
    pub at: Cursor,
    pub steps: u32,
    pub removed: u32,
}

impl RanIn {
    // No step.
    fn unmoved(answer: Answer, at: Cursor) -> RanIn
        ensures { result ≡ record { answer = answer; at = at; steps = 0; removed = 0 } }
    {
        RanIn {
            answer,
            at,
            steps: 0,
            removed: 0,
        }
    }
}

// The program's budget. It is enough: with it, or with more, a run from a good state ends stable or none (`run_enough`).
pub const FULL_BUDGET: u32 = 300000;

// Where a step takes the run.
fn advance(at: Cursor, n: usize, none: bool, removed: u32) -> Cursor
    requires { (n ≤ 64) × (at.place ≤ last_place n) }
    ensures { Advanced n at none removed result }
{
    if none {
        return Cursor {
            end: End::None,
            ..at
        };
    }
    let mark = at.mark | (0 < removed);
    if at.place < Work::last_place(n) {
        return Cursor {
            place: at.place + 1,
            mark,
            end: End::Open,
        };
    }
    let end = if mark { End::Open } else { End::Stable };
    Cursor {
        place: 0,
        mark: false,
        end,
    }
}

// Does the place have a pass that is known to leave the table as it is? Its seed is in `idle`.
fn is_known(idle: u64, place: usize) -> bool
    requires { place ≤ 65 }
    ensures { (n limit : ℕ) (t : List ℕ) → IdleSeeds n limit t idle → result ≡ true → says (rule_at place) n t limit ≡ leaves t }
{
    if place < 2 {
        return false;
    }
    bitset::contains(idle, place - 2)
}

// The passes that are known to leave the table, after a step: all are forgotten where a leg may have gone, since a pass may strike more then.
fn idle_after(idle: u64, place: usize, taken: Taken) -> u64
    requires { place ≤ 65 }
    ensures { (n limit : ℕ) (t u : List ℕ) → IdleSeeds n limit t idle → says (rule_at place) n t limit ≡ record { none = taken.none; left = u } → (taken.struck ≡ false → u ≡ t) → IdleSeeds n limit u result }
{
    if taken.none | taken.struck {
        return 0;
    }
    if place < 2 {
        return idle;
    }
    idle | (1u64 << (place - 2))
}

// The rule at the place is taken; a pass that is known to leave the table is not looked at.
fn take_at(place: usize, idle: u64, net: &mut Network, limit: usize) -> Taken
    requires { (2 ≤ net.old.n) × (place ≤ last_place net.old.n) × IdleSeeds net.old.n limit net.old.rows idle }
    ensures { (net.new.n ≡ net.old.n) × TableLeft (says (rule_at place) net.old.n net.old.rows limit) result net.old.rows net.new.rows }
{
    if is_known(idle, place) {
        return Taken {
            none: false,
            struck: false,
        };
    }
    take_on(Rule::at_place(place), net, limit)
}

// While the end is open and fewer steps than the budget are taken, one step. The rows are written only where a leg went.
fn run_from(rows: &mut [u64; 64], n: usize, limit: usize, from: Cursor, budget: u32) -> RanIn
    requires { Good (state_at n rows.old limit from) }
    ensures { ran_as n limit rows.new result ≡ run_from budget (state_at n rows.old limit from) }
{
    let mut net = Network::of(rows, n);
    let start = circuit::legs_of(rows, n);
    let mut standing = start;
    let mut idle = 0u64;
    let mut at = from;
    let mut steps = 0u32;
    // By hand: no index, the steps that were taken are part of the result.
    while steps < budget && at.end.is_open() {
        let taken = take_at(at.place, idle, &mut net, limit);
        idle = idle_after(idle, at.place, taken);
        let left = legs_after(taken.struck, standing, &net.rows, n);
        at = advance(at, n, taken.none, standing - left);
        standing = left;
        steps += 1;
    }
    let removed = start - standing;
    if removed != 0 {
        let left = net.rows;
        *rows = left;
    }
    RanIn {
        answer: Answer::Taken,
        at,
        steps,
        removed,
    }
}

// The run with a budget, on lent rows. Where no step is due, since the budget is 0 or the end is not open, nothing is gathered.
pub fn run_in(rows: &mut [u64; 64], n: usize, limit: usize, from: Cursor, budget: u32) -> RanIn
    ensures { (ran_as n limit rows.new result ≡ run_call (state_at n rows.old limit from) budget)
        × (result.removed ≡ 0 → rows.new ≡ rows.old) }
{
    if circuit::is_bad_state(rows, n, limit, from.place) {
        return RanIn::unmoved(Answer::BadWork, from);
    }
    if budget == 0 {
        return RanIn::unmoved(Answer::Taken, from);
    }
    if from.end.is_open() {
        return run_from(rows, n, limit, from, budget);
    }
    RanIn::unmoved(Answer::Taken, from)
}

// The run with a budget.
pub fn run(work: Work, budget: u32) -> Ran
    ensures { result ≡ run_call work budget }
{
    let mut rows = work.table.rows;
    let ran = run_in(&mut rows, work.n, work.limit, Cursor::of(work), budget);
    Ran {
        answer: ran.answer,
        work: ran.at.state(work, rows),
        steps: ran.steps,
        removed: ran.removed,
    }
}
