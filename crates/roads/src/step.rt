// The cut step on a two-way table and its must-drive roads.
ghost use Rattle.std.specs.Prelude.{◌≡◌, true, ◌&&◌, ◌||◌, ◌≤◌};
ghost use Rattle.bitset.specs.Sets.{any};
ghost use Rattle.circuit.specs.Legs.{leg, table_of};
ghost use Rattle.circuit.specs.inner.Columns.{Corner};
ghost use Rattle.roads.specs.Cut.{cut, is_two_way, are_roads};

use crate::marking::Marks;
use crate::sums::mark_all;

// What the step says: none or not, and the two tables that are left.
// By hand: no Option, as the definition `cut` of specs/Cut returns this record, with both tables where the step says none.
#[derive(Clone, Copy)]
pub struct RoadVerdict {
    pub none: bool,
    pub left: [u64; 64],
    pub must: [u64; 64],
}

impl Marks {
    // Does a road have to be driven and go? What marks say beyond n is left open.
    fn clash(&self, n: usize) -> bool
        requires { n ≤ 64 }
        ensures { result ≡ any n (λ i. any n (λ j. leg self.now.force i j && leg self.now.drop i j)) }
    {
        let all = bitset::full(n);
        (0..n).any(|i| self.force[i] & self.drop[i] & all != 0)
    }
}

// The must-drive table with the roads that have to be driven.
fn obliged(must: [u64; 64], force: &[u64; 64], n: usize) -> [u64; 64]
    requires { (n ≤ 64) × Corner n must }
    ensures { result ≡ table_of n (λ i j. leg must i j || leg force.now i j) }
{
    let all = bitset::full(n);
    let mut out = must;
    for i in 0..n {
        out[i] |= force[i] & all;
    }
    out
}

// The cut step on a table of n stations that has passed the checks.
pub fn cut(rows: [u64; 64], must: [u64; 64], n: usize) -> RoadVerdict
    requires { (n ≤ 64) × Corner n rows × (is_two_way n rows ≡ true) × (are_roads rows must ≡ true) }
    ensures { result ≡ cut n rows must }
{
    let mut marks = Marks::none();
    if mark_all(&rows, &must, n, &mut marks) || marks.clash(n) {
        return RoadVerdict {
            none: true,
            left: rows,
            must,
        };
    }
    RoadVerdict {
        none: false,
        left: circuit::difference(&rows, &marks.drop),
        must: obliged(must, &marks.force, n),
    }
}
