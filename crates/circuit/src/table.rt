// The leg table: its full one, its legs, and its stray legs.
ghost use Rattle.std.specs.Prelude.{◌≡◌, ◌≤◌};
ghost use Rattle.std.specs.Int.Count.{ones};
ghost use Rattle.bitset.specs.Sets.{sum};
ghost use Rattle.bitset.specs.Upto.{row};
ghost use Rattle.circuit.specs.Legs.{full_table, capped, difference, legs};
ghost use Rattle.circuit.specs.State.{stray};
ghost use Rattle.circuit.specs.inner.Tables.{Square, Tells};

#[derive(Clone, Copy, Debug, PartialEq, Eq)]
pub struct Table {
    pub rows: [u64; 64],
}

impl Table {
    // The smallest and the largest round.
    pub const MIN: usize = 2;

    pub const MAX: usize = 64;

    // The full table of n: all legs between different stations. A table holds no more than 64.
    pub fn full(n: usize) -> Table
        ensures { result.rows ≡ full_table (capped n) }
    {
        let stations = n.min(Table::MAX);
        let all = bitset::full(stations);
        let mut own = 1u64;
        let mut rows = [0u64; 64];
        for i in 0..stations {
            rows[i] = all & !own;
            own <<= 1;
        }
        Table { rows }
    }
}

// The legs of the one table that do not stand in the other.
pub fn difference(rows: &[u64; 64], other: &[u64; 64]) -> [u64; 64]
    ensures { result ≡ difference rows.now other.now }
{
    let mut left = [0u64; 64];
    for i in 0..Table::MAX {
        left[i] = bitset::difference(rows[i], other[i]);
    }
    left
}

// How many legs stand: the bits that are set. In a table without stray legs these are the legs of its n stations
// (`legs_ones` of proofs/StateLaws).
pub fn legs(rows: &[u64; 64]) -> u32
    ensures { (result ≡ sum 64 (λ i. ones (row rows.now i))) × (result ≤ 4096) }
{
    set_bits(rows, Table::MAX)
}

// The same from the rows of the n stations alone.
pub fn legs_of(rows: &[u64; 64], n: usize) -> u32
    requires { (n ≤ 64) × Square n rows.now }
    ensures { (result ≡ legs n rows.now) × (result ≤ 4096) }
{
    set_bits(rows, n)
}

// The bits that are set in the first n rows.
fn set_bits(rows: &[u64; 64], n: usize) -> u32
    requires { n ≤ 64 }
    ensures { (result ≡ sum n (λ i. ones (row rows.now i))) × (result ≤ 4096) }
{
    let mut count = 0u32;
    for i in 0..n {
        count += rows[i].count_ones();
    }
    count
}

// Has the table a leg that the full table of n has not? What is found in the rows is gathered in one word.
pub(crate) fn stray(rows: &[u64; 64], n: usize) -> bool
    requires { n ≤ 64 }
    ensures { result ≡ stray n rows.now }
{
    let within = stray_within(rows, n);
    stray_beyond(rows, n, within) != 0
}

// The rows of the n stations. The station's own bit moves along, here and in `full`: a shift by i in each row took a third more time.
fn stray_within(rows: &[u64; 64], n: usize) -> u64
    requires { n ≤ 64 }
    ensures { Tells n rows.now n result }
{
    let all = bitset::full(n);
    let mut own = 1u64;
    let mut found = 0u64;
    for i in 0..n {
        let full_row = all & !own;
        found |= rows[i] & !full_row;
        own <<= 1;
    }
    found
}

// With what was found there, the rows beyond.
fn stray_beyond(rows: &[u64; 64], n: usize, within: u64) -> u64
    requires { (n ≤ 64) × Tells n rows.now n within }
    ensures { Tells n rows.now 64 result }
{
    let mut found = within;
    for i in n..Table::MAX {
        found |= rows[i];
    }
    found
}
