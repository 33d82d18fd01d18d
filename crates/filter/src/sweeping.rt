// The sweep on words: what the stations with one leg only leave of each row. The columns are not read.
ghost use Rattle.std.specs.Prelude.{◌≡◌, false, cond, ◌&&◌, ℕ, ◌<◌, ◌≤◌, length};
ghost use Rattle.std.specs.Int.Bits.{bit_and};
ghost use Rattle.bitset.specs.Sets.{has, set_of};
ghost use Rattle.circuit.specs.State.{stray};
ghost use Rattle.filter.specs.Sweep.{swept, sweep};
ghost use Rattle.filter.specs.inner.Steps.{RowsLeft};
ghost use Rattle.filter.specs.inner.Singles.{single, sole_in, SinglesOf, keeps};

use crate::singles::{Singles, is_single, single_words};
use separator::Taken;

// The stations that another station has as its only next, for the station of the row.
fn taken(row: u64, next: Singles) -> u64
    ensures { result ≡ cond (single row) next.twice next.once }
{
    if is_single(row) {
        next.twice
    } else {
        next.once
    }
}

// What the sweep leaves of a row; `sole` has the stations with one leg in.
fn swept_row(row: u64, next: Singles, sole: u64) -> u64
    ensures { (j : ℕ) → j < 64 → has result j ≡ has row j && keeps next (bit_and row sole) row j }
{
    let left = row & !taken(row, next);
    let own = row & sole;
    if own == 0 {
        return left;
    }
    if is_single(own) {
        return left & own;
    }
    0
}

// Sweeps each row. Answers whether a leg went.
fn sweep_words(rows: &mut [u64; 64], n: usize, next: Singles, sole: u64) -> bool
    requires { (n ≤ 64) × (stray n rows.old ≡ false) × SinglesOf n rows.old next × (sole ≡ set_of 64 (sole_in next)) }
    ensures { (rows.new ≡ swept n rows.old) × (result ≡ false → rows.new ≡ rows.old) }
{
    let mut struck = false;
    for row in &mut rows[..n] {
        let left = swept_row(*row, next, sole);
        struck |= left != *row;
        *row = left;
    }
    struck
}

// The sweep on the rows. Where no station has one leg only, no leg goes.
pub(crate) fn sweep_rows(rows: &mut [u64; 64], n: usize) -> Taken
    requires { (n ≤ 64) × (stray n rows.old ≡ false) }
    ensures { RowsLeft n (sweep n rows.old) result rows.old rows.new }
{
    let next = single_words(rows, n);
    if next.empty | (next.reached != bitset::full(n)) {
        return Taken {
            none: true,
            struck: false,
        };
    }
    let sole = next.sole();
    if (next.once == 0) & (sole == 0) {
        return Taken {
            none: false,
            struck: false,
        };
    }
    let struck = sweep_words(rows, n, next, sole);
    Taken {
        none: false,
        struck,
    }
}
