// A table by its rows and, alike, by its columns.
ghost use Rattle.std.specs.Prelude.{◌≡◌, ◌≤◌, false, replicate};
ghost use Rattle.circuit.specs.State.{stray};
ghost use Rattle.circuit.specs.inner.Tables.{Columned};

use crate::transposition::transpose;

// Bit k of row i is bit i of column k. A leg that is struck goes from both.
#[derive(Drop)]
pub struct Network {
    pub n: usize,
    pub rows: [u64; 64],
    pub cols: [u64; 64],
    ghost most: { n ≤ 64 },
    ghost columned: { Columned n rows cols },
}

impl Network {
    // The network of a table's rows: the columns are gathered.
    pub fn of(rows: &[u64; 64], n: usize) -> Network
        requires { (n ≤ 64) × (stray n rows.now ≡ false) }
        ensures { (result.n ≡ n) × (result.rows ≡ rows.now) }
    {
        let mut net = Network {
            n,
            rows: [0; 64],
            cols: [0; 64],
        };
        fill(&mut net.rows, rows, n);
        fill(&mut net.cols, rows, n);
        transpose(&mut net.cols, n);
        net
    }
}

// Puts a table into empty words: its rows beyond n are empty too, so only the first n are copied.
fn fill(words: &mut [u64; 64], rows: &[u64; 64], n: usize)
    requires { (n ≤ 64) × (stray n rows.now ≡ false) × (words.old ≡ replicate 64 0) }
    ensures { words.new ≡ rows.now }
{
    words[..n].copy_from_slice(&rows[..n]);
}
