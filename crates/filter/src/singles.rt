// What the sweep and the chain step gather of the rows: which stations have no leg or one leg only, out and in.
ghost use Rattle.std.specs.Prelude.{◌≡◌, cond, ◌≤◌};
ghost use Rattle.bitset.specs.Sets.{set_of};
ghost use Rattle.filter.specs.inner.Singles.{single, sole_in, SinglesOf};

// Of the first rows of a table: some row is empty; the members of some row, the stations with a leg in, and of two rows; and the same of the rows
// with one member only.
// By hand, no Option: the other fields say what they say where a row is empty too.
#[derive(Clone, Copy)]
pub(crate) struct Singles {
    pub(crate) empty: bool,
    pub(crate) reached: u64,
    pub(crate) again: u64,
    pub(crate) once: u64,
    pub(crate) twice: u64,
}

impl Singles {
    // The stations with one leg in.
    pub(crate) fn sole(self) -> u64
        ensures { result ≡ set_of 64 (sole_in self) }
    {
        bitset::difference(self.reached, self.again)
    }
}

// Has the word one member only?
pub(crate) fn is_single(w: u64) -> bool
    ensures { result ≡ single w }
{
    if w == 0 {
        return false;
    }
    w & (w - 1) == 0
}

// The word, where it has one member only.
fn only_member(w: u64) -> u64
    ensures { result ≡ cond (single w) w 0 }
{
    if is_single(w) { w } else { 0 }
}

pub(crate) fn single_words(rows: &[u64; 64], n: usize) -> Singles
    requires { n ≤ 64 }
    ensures { SinglesOf n rows.now result }
{
    let mut empty = false;
    let mut reached = 0u64;
    let mut again = 0u64;
    let mut once = 0u64;
    let mut twice = 0u64;
    for &row in &rows[..n] {
        let w = only_member(row);
        empty |= row == 0;
        again |= reached & row;
        reached |= row;
        twice |= once & w;
        once |= w;
    }
    Singles {
        empty,
        reached,
        again,
        once,
        twice,
    }
}
