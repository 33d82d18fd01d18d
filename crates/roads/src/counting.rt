// The roads across a split of the stations, counted.
ghost use Rattle.std.specs.Prelude.{◌≡◌, ◌⊎◌};
ghost use Rattle.bitset.specs.Sets.{sum};
ghost use Rattle.roads.specs.inner.Promises.{part_in, Capped};

// The roads across x, if there are at most three.
pub(crate) fn crossing(rows: &[u64; 64], x: u64) -> Option<u32>
    ensures { Capped (sum 64 (part_in rows.now x x)) result }
{
    let mut k = 0u32;
    for i in bitset::Members::of(x) {
        k += (rows[i] & !x).count_ones();
        if 3 < k {
            return None;
        }
    }
    Some(k)
}

// The side with fewer of the n stations.
pub(crate) fn smaller(x: u64, other: u64, n: usize) -> u64
    ensures { (result ≡ x) ⊎ (result ≡ other) }
{
    if 2 * (x.count_ones() as usize) <= n {
        x
    } else {
        other
    }
}
