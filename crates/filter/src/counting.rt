// How many legs stand after a step, and how many went. Most steps strike nothing: then no leg is counted.
ghost use Rattle.std.specs.Prelude.{◌≡◌, false, ◌+◌, ◌-◌, ◌≤◌};
ghost use Rattle.circuit.specs.Legs.{legs, Subtable};
ghost use Rattle.circuit.specs.State.{stray};
ghost use Rattle.circuit.specs.inner.Tables.{Square};

// The legs that stand after a step; `standing` of them stood before it.
// By hand, here, in `compulsory_legs` and in `renew`: `Square` is one word of a clause, and a type for it would be built at each of the three calls.
pub(crate) fn legs_after(struck: bool, standing: u32, rows: &[u64; 64], n: usize) -> u32
    requires { (n ≤ 64) × Square n rows.now × (struck ≡ false → standing ≡ legs n rows.now) }
    ensures { result ≡ legs n rows.now }
{
    if struck {
        circuit::legs_of(rows, n)
    } else {
        standing
    }
}

// The legs of the first n rows that went.
fn legs_gone(before: &[u64; 64], after: &[u64; 64], n: usize) -> u32
    requires { (n ≤ 64) × Square n before.now × Square n after.now × Subtable after.now before.now }
    ensures { result ≡ legs n before.now - legs n after.now }
{
    let mut gone = 0u32;
    for i in 0..n {
        gone += (before[i] & !after[i]).count_ones();
    }
    gone
}

// Legs before less legs after.
pub(crate) fn removals(struck: bool, before: &[u64; 64], after: &[u64; 64], n: usize) -> u32
    requires { (n ≤ 64) × (stray n before.now ≡ false) × (stray n after.now ≡ false) × Subtable after.now before.now
        × (struck ≡ false → after.now ≡ before.now) }
    ensures { result ≡ legs n before.now - legs n after.now }
{
    if struck {
        legs_gone(before, after, n)
    } else {
        0
    }
}
