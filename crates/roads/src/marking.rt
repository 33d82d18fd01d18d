// What a split with at most three roads says: no round, roads that have to be driven, roads that go.
ghost use Rattle.std.specs.Prelude.{◌≡◌, ◌&&◌, ◌||◌, ℕ, ◌^◌, ◌<◌, ◌≤◌, replicate};
ghost use Rattle.std.specs.Bool.{xor};
ghost use Rattle.bitset.specs.Sets.{has};
ghost use Rattle.circuit.specs.Legs.{leg};
ghost use Rattle.roads.specs.Cut.{split};
ghost use Rattle.roads.specs.inner.Promises.{RoadsOf, Marked};

use crate::counting::{crossing, smaller};
use crate::sums::Search;

// The roads that are marked: those that have to be driven, and those that go.
#[derive(Drop)]
pub(crate) struct Marks {
    pub(crate) force: [u64; 64],
    pub(crate) drop: [u64; 64],
}

impl Marks {
    pub(crate) fn none() -> Marks
        ensures { (result.force ≡ replicate 64 0) × (result.drop ≡ replicate 64 0) }
    {
        Marks {
            force: [0; 64],
            drop: [0; 64],
        }
    }
}

// The stations that the split x parts from station i.
fn parted(x: u64, i: usize) -> u64
    requires { i < 64 }
    ensures { (j : ℕ) → j < 64 → has result j ≡ xor (has x i) (has x j) }
{
    if bitset::contains(x, i) { !x } else { x }
}

// Marks the roads of the table that are across x, in both directions.
fn mark(table: &mut [u64; 64], roads: &[u64; 64], n: usize, x: u64)
    requires { n ≤ 64 }
    ensures { (i j : ℕ) → i < n → j < 64
        → leg table.new i j ≡ leg table.old i j || (xor (has x i) (has x j) && leg roads.now i j) }
{
    for i in 0..n {
        table[i] |= roads[i] & parted(x, i);
    }
}

impl Search<'_> {
    // How many roads the split x has, if there are at most three; none, where x is no split. They are counted from the smaller side.
    fn roads_across(&self, x: u64) -> Option<u32>
        requires { x < 2 ^ self.now.n }
        ensures { RoadsOf self.now.n (leg self.now.rows.now) x result }
    {
        if x == 0 {
            return None;
        }
        let other = self.all - x;
        if other == 0 {
            return None;
        }
        crossing(self.rows, smaller(x, other, self.n))
    }

    // Marks what x says, where it is a split with at most three roads. Does it say that there is no round?
    pub(crate) fn judge(&self, x: u64, marks: &mut Marks) -> bool
        requires { x < 2 ^ self.now.n }
        ensures { Marked self.now.n self.now.rows.now self.now.must.now marks.old result marks.new (λ f. split self.now.n x && f x) }
    {
        let Some(k) = self.roads_across(x) else {
            return false;
        };
        let few = k < 2;
        if few {
            return true;
        }
        if k == 2 {
            mark(&mut marks.force, self.rows, self.n, x);
            return false;
        }
        let m = crossing(self.must, x);
        if m == Some(3) {
            return true;
        }
        let both = m == Some(2);
        if both {
            mark(&mut marks.drop, self.free, self.n, x);
        }
        false
    }
}
