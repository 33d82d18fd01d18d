// A rule that strikes legs: a sweep, a chain step, or a pass with a seed. The seed is a station's number, from 1.
ghost use Rattle.std.specs.Prelude.{false, ◌≡◌, ◌<◌, ◌≤◌};
ghost use Rattle.circuit.specs.Legs.{columns};
ghost use Rattle.circuit.specs.State.{stray};
ghost use Rattle.circuit.specs.inner.Tables.{Square};
ghost use Rattle.filter.specs.Pass.{pass};
ghost use Rattle.filter.specs.Rule.{says, stray_seed, rule_at};
ghost use Rattle.filter.specs.inner.Steps.{RowsLeft, TableLeft};

use crate::chaining::chain_rows;
use crate::passing::pass_on;
use crate::sweeping::sweep_rows;
use circuit::Network;
use separator::Taken;

#[derive(Clone, Copy, Debug, PartialEq, Eq)]
pub enum Rule {
    Sweep,
    Chain,
    Pass(usize),
}

impl Rule {
    // Has it a stray seed (8)?
    pub(crate) fn has_stray_seed(self, n: usize) -> bool
        ensures { result ≡ stray_seed n self }
    {
        match self {
            Rule::Sweep | Rule::Chain => false,
            Rule::Pass(seed) => bitset::outside(1, n, seed),
        }
    }

    // The rule at a place of the cycle.
    pub(crate) fn at_place(place: usize) -> Rule
        ensures { result ≡ rule_at place }
    {
        match place {
            0 => Rule::Sweep,
            1 => Rule::Chain,
            _ => Rule::Pass(place - 1),
        }
    }
}

// Gathers the columns again, where a leg went since.
fn renew(cols: &mut [u64; 64], rows: &[u64; 64], n: usize, struck: bool)
    requires { (n ≤ 64) × Square n rows.now × (struck ≡ false → cols.old ≡ columns n rows.now) }
    ensures { cols.new ≡ columns n rows.now }
{
    if struck {
        *cols = circuit::columns(rows, n);
    }
}

// Strikes what the rule strikes, from the columns as from the rows.
// By hand, here and in `take`: a match on the rule, as in the definition `says` of specs/Rule; a closure for the two arms of three lines would be no plainer.
pub(crate) fn take_on(rule: Rule, net: &mut Network, limit: usize) -> Taken
    requires { (2 ≤ net.old.n) × (stray_seed net.old.n rule ≡ false) }
    ensures { (net.new.n ≡ net.old.n) × TableLeft (says rule net.old.n net.old.rows limit) result net.old.rows net.new.rows }
{
    match rule {
        Rule::Sweep => {
            let taken = sweep_rows(&mut net.rows, net.n);
            renew(&mut net.cols, &net.rows, net.n, taken.struck);
            taken
        }
        Rule::Chain => {
            let taken = chain_rows(&mut net.rows, net.n);
            renew(&mut net.cols, &net.rows, net.n, taken.struck);
            taken
        }
        Rule::Pass(seed) => pass_on(net, limit, seed - 1),
    }
}

// The pass on the rows alone. They are written only where a leg went.
fn pass_rows(rows: &mut [u64; 64], n: usize, limit: usize, seed: usize) -> Taken
    requires { (n ≤ 64) × (seed < n) × (stray n rows.old ≡ false) }
    ensures { RowsLeft n (pass n rows.old limit seed) result rows.old rows.new }
{
    let mut net = Network::of(rows, n);
    let taken = pass_on(&mut net, limit, seed);
    if taken.struck {
        let left = net.rows;
        *rows = left;
    }
    taken
}

// The same on the rows alone: only a pass needs the columns.
pub(crate) fn take(rule: Rule, rows: &mut [u64; 64], n: usize, limit: usize) -> Taken
    requires { (2 ≤ n) × (n ≤ 64) × (stray_seed n rule ≡ false) × (stray n rows.old ≡ false) }
    ensures { RowsLeft n (says rule n rows.old limit) result rows.old rows.new }
{
    match rule {
        Rule::Sweep => sweep_rows(rows, n),
        Rule::Chain => chain_rows(rows, n),
        Rule::Pass(seed) => pass_rows(rows, n, limit, seed - 1),
    }
}
