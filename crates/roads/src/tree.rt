// A spanning tree that grows from station 0, as words: word i has the stations that hang on the i-th one that joined, itself too. Word 0 is empty.
ghost use Rattle.std.specs.Prelude.{◌≡◌, ℕ, ◌^◌, ◌<◌, ◌≤◌};
ghost use Rattle.bitset.specs.Upto.{row};
ghost use Rattle.circuit.specs.Legs.{leg};
ghost use Rattle.roads.specs.inner.Trees.{Joins};
ghost use Rattle.roads.specs.inner.Promises.{Outlet, Spanned};

// The first station of `seen` with a road out of it.
fn outlet(rows: &[u64; 64], seen: u64) -> Option<usize>
    ensures { Outlet rows.now seen result }
{
    for p in bitset::Members::of(seen) {
        if rows[p] & !seen != 0 {
            return Some(p);
        }
    }
    None
}

// u joins below p: it gets a word, and the words that have p get u.
// By hand: an array and its length, since there is no heap.
fn join(words: &mut [u64; 64], count: usize, p: usize, u: usize)
    requires { (count < 64) × (p < 64) × (u < 64) }
    ensures { Joins count p u (row words.old) (row words.new) }
{
    let new = bitset::singleton(u);
    for i in 0..count {
        let word = words[i];
        words[i] = if bitset::contains(word, p) {
            word | new
        } else {
            word
        };
    }
    words[count] = new;
}

// The words of a spanning tree of the n stations; none, where roads do not join them all.
pub(crate) fn spanning(rows: &[u64; 64], n: usize) -> Option<[u64; 64]>
    requires { (0 < n) × (n ≤ 64) × ((i : ℕ) → i < n → row rows.now i < 2 ^ n) × ((i j : ℕ) → i < n → j < n → leg rows.now i j ≡ leg rows.now j i) }
    ensures { Spanned rows.now n result }
{
    let mut words = [0u64; 64];
    let mut count = 1usize;
    let mut seen = 1u64;
    while let Some(p) = outlet(rows, seen) {
        let u = bitset::lowest(rows[p] & !seen) as usize;
        join(&mut words, count, p, u);
        count += 1;
        seen |= bitset::singleton(u);
    }
    if seen == bitset::full(n) {
        Some(words)
    } else {
        None
    }
}
