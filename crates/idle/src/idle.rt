// Passes that leave the table as it is, told without striking a leg. Of each component outside a level a group is known, with the pairs of the level that a way
// through the group's pivot joins. There may be more such pairs, and a component may have more groups than one; so the answer is one-sided.
ghost use Rattle.std.specs.Prelude.{true, List, ◌≢◌, ◌≡◌, ℕ, ◌+◌, ◌^◌, ◌<◌, ◌≤◌, length, take};
ghost use Rattle.bitset.specs.Sets.{has};
ghost use Rattle.bitset.specs.Upto.{row};
ghost use Rattle.matching.specs.Matching.{Inside};
ghost use Rattle.separator.specs.Levels.{levels, unreached, inner};
ghost use Rattle.idle.specs.inner.Groups.{Part, Along, Reaches, GroupIn, group_at, Pairs, Settles, Spans, ends_at};
ghost use Rattle.idle.specs.inner.Idle.{Idle};
ghost use Rattle.separator.specs.inner.Reach.{Linked};

use crate::group::led_on;
use crate::groups::Groups;
use crate::ways::Ways;
use circuit::Network;
use separator::{Ends, Led, Levels, grown, led_from};

// The stations of `own` that have another one in `other`.
fn paired(own: u64, other: u64) -> u64
    ensures { (x : ℕ) → has result x ≡ true → (has own x ≡ true) × ((y : ℕ) × (has other y ≡ true) × (y ≢ x)) }
{
    if other == 0 {
        return 0;
    }
    if other & (other - 1) == 0 {
        return own & !other;
    }
    own
}

// The ends of the pairs of s that a way through a pivot joins, of the stations that it leads to and that lead to it.
fn ends_in(s: u64, ahead: Led, back: Led) -> Ends
    ensures { Part result.tails s × Part result.heads s
        × ((rows cols : List ℕ) (room p : ℕ) → Reaches rows room p ahead → Reaches cols room p back → Pairs rows cols room s p result.tails result.heads) }
{
    let enter = ahead.beyond & s;
    let leave = back.beyond & s;
    Ends {
        tails: paired(leave, enter),
        heads: paired(enter, leave),
    }
}

// Does the pivot lead to all n stations, those of `seen` and of the last level s?
fn leads_to_all(words: &[u64; 64], n: usize, seen: u64, s: u64, led: Led) -> bool
    requires { n ≤ 64 }
    ensures { (wide p : ℕ) → Part seen wide → Part s wide → Reaches words.now wide p led → result ≡ true
        → (x : ℕ) → x < n → Along words.now wide p x }
{
    let room = (seen | s) & !led.all;
    led.all | grown(words, room, led.beyond & s) == bitset::full(n)
}

// The levels below each level are one group, with the seed as its pivot: `ends` gets the ends of its pairs in each inner level. Answers whether the seed leads to
// all stations, and all lead to it.
fn rise(net: &Network, seed: usize, found: &Levels, ends: &mut [Ends; 32]) -> bool
    requires { (seed < 64) × (2 ≤ found.now.count) × (found.now.count ≤ 33) × (row found.now.level 0 ≡ 2 ^ seed) }
    ensures { ((k : ℕ) → 1 ≤ k → k + 1 < found.now.count → (w : ℕ) × Spans found.now.level 0 k w
        × Pairs net.now.rows net.now.cols w (row found.now.level k) seed (ends_at ends.new k).tails (ends_at ends.new k).heads)
        × (result ≡ true → (w : ℕ) × Spans found.now.level 0 found.now.count w
        × ((x : ℕ) → x < net.now.n → Along net.now.rows w seed x × Along net.now.cols w seed x)) }
{
    let mut seen = bitset::singleton(seed);
    let mut ahead = led_from(&net.rows, 0, seen);
    let mut back = led_from(&net.cols, 0, seen);
    for k in 1..found.count - 1 {
        let s = found.level[k];
        ends[k] = ends_in(s, ahead, back);
        seen |= s;
        ahead = led_on(&net.rows, seen, ahead, s);
        back = led_on(&net.cols, seen, back, s);
    }
    let s = found.level[found.count - 1];
    leads_to_all(&net.rows, net.n, seen, s, ahead) && leads_to_all(&net.cols, net.n, seen, s, back)
}

// The stations of a level that each of the groups above it, and after them the levels below, can take, out and in.
// By hand: two arrays of words, and not one of `Ends`, since `matching::assign` takes an array of words and how many of them count.
#[derive(Drop)]
struct Fits {
    out: [u64; 64],
    into: [u64; 64],
}

// The ends of the pairs of s by way of each of the groups.
fn ends_above(s: u64, groups: &Groups, fits: &mut Fits)
    ensures { (length fits.new.out ≡ 64) × (length fits.new.into ≡ 64)
        × ((g : ℕ) → g < groups.now.count → Part (row fits.new.out g) s × Part (row fits.new.into g) s)
        × ((g : ℕ) → g < groups.now.count → (t c b : List ℕ) (room : ℕ) (G : GroupIn t c b room (group_at groups.now.groups g))
        → Pairs t c room s G.pivot (row fits.new.out g) (row fits.new.into g)) }
{
    for g in 0..groups.count {
        let group = groups.groups[g];
        let ends = ends_in(s, group.ahead, group.back);
        fits.out[g] = ends.tails;
        fits.into[g] = ends.heads;
    }
}

// One side of the level s, out or in: can the p groups have stations of their own, each one of those in its word of `fits`, whichever station with a leg inside s
// is left out? `words` are the columns for the out side, the rows for the in side.
fn settles(fits: &[u64; 64], p: usize, s: u64, words: &[u64; 64]) -> bool
    requires { (p ≤ 64) × Inside fits.now p s }
    ensures { result ≡ true → Settles fits.now p s words.now }
{
    let Some(spare) = matching::assign(fits, p, s) else {
        return false;
    };
    spare == s || bitset::union_of_rows(words, s) & s & !spare == 0
}

// Does the level s leave the table, by the pairs of the groups above it and by those of the levels below, whose ends are `below`?
fn leaves_level(net: &Network, s: u64, groups: &Groups, below: Ends, fits: &mut Fits) -> bool
    requires { Part below.tails s × Part below.heads s }
    ensures { ((g : ℕ) → g < groups.now.count → (t c b : List ℕ) (room : ℕ) (G : GroupIn t c b room (group_at groups.now.groups g))
        → Pairs t c room s G.pivot (row fits.new.out g) (row fits.new.into g))
        × (row fits.new.out groups.now.count ≡ below.tails) × (row fits.new.into groups.now.count ≡ below.heads)
        × (result ≡ true → Settles fits.new.out (groups.now.count + 1) s net.now.cols × Settles fits.new.into (groups.now.count + 1) s net.now.rows) }
{
    ends_above(s, groups, fits);
    let q = groups.count;
    fits.out[q] = below.tails;
    fits.into[q] = below.heads;
    settles(&fits.out, q + 1, s, &net.cols) && settles(&fits.into, q + 1, s, &net.rows)
}

// Yes is said only where no level between the first and the last strikes a leg or says none, those over the limit aside. The levels are those of the seed and have
// all stations.
pub fn is_idle(net: &Network, nbr: &[u64; 64], limit: usize, seed: usize, found: &Levels) -> bool
    requires { (seed < net.now.n) × Linked net.now.n net.now.rows nbr.now × (take found.now.count found.now.level ≡ levels net.now.n net.now.rows seed)
        × (unreached net.now.n (levels net.now.n net.now.rows seed) ≡ 0) × (found.now.count ≤ 64) }
    ensures { result ≡ true → Idle net.now.n net.now.rows limit (inner (levels net.now.n net.now.rows seed)) }
{
    // An inner level of one station gives none. With two in each there are no more levels than these.
    if found.count < 2 || 33 < found.count {
        return false;
    }
    let mut ends = [Ends { tails: 0, heads: 0 }; 32];
    if !rise(net, seed, found, &mut ends) {
        return false;
    }
    let ways = Ways { net, nbr };
    let mut groups = Groups::none();
    let mut fits = Fits {
        out: [0; 64],
        into: [0; 64],
    };
    for k in (1..found.count - 1).rev() {
        groups.regroup(ways, found.level[k + 1]);
        let missed = groups.left != 0;
        if missed {
            return false;
        }
        let s = found.level[k];
        if s.count_ones() as usize <= limit && !leaves_level(net, s, &groups, ends[k], &mut fits) {
            return false;
        }
    }
    true
}
