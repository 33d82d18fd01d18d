// Matching components with stations, by augmenting paths: whether each component can have a station of its own, and which stations can be spared.
// Inside, `free` has the stations without a component, and `owner` names the component at each other station.
#![tactic(auto)]

ghost use Rattle.std.specs.Prelude.{◌≡◌, ℕ, ◌+◌, ◌<◌, ◌≤◌, is_some, unwrap_or};
ghost use Rattle.bitset.specs.Upto.{row};
ghost use Rattle.matching.specs.Matching.{In, Out, Inside, Exact};
ghost use Rattle.matching.specs.inner.Paths.{Matched, Reached, Augmenting, Extended};

// The stations from which an alternating path leads to a free one. For each, `via` gets the station to which its component can move.
// A station that is found can let others in, so the rest are then tried anew.
fn reachable(
    fits: &[u64; 64],
    owner: &[u8; 64],
    stations: u64,
    free: u64,
    via: &mut [u8; 64],
) -> u64
    requires { ((s : ℕ) → In free s → In stations s) × ((s : ℕ) → In stations s → Out free s → row owner.now s < 64) }
    ensures { Reached fits.now owner.now stations free result via.new }
{
    let mut reach = free;
    let mut rest = stations & !free;
    // By hand: what is found puts stations back into `rest`.
    while rest != 0 {
        let s = bitset::lowest(rest) as usize;
        let hit = fits[owner[s] as usize] & reach;
        if hit != 0 {
            via[s] = bitset::lowest(hit) as u8;
            reach |= bitset::singleton(s);
            rest = stations & !reach;
        } else {
            rest &= rest - 1;
        }
    }
    reach
}

// Augments the matching along the path from the component n to the station `first` and on by `via`: each component on it moves to the next station.
// The result is the free stations without the path's last. `fits` and `stations` stand in the contract alone. `rest`, the stations that may still
// come, only shows that the walk ends.
fn augment(
    fits: &[u64; 64],
    owner: &mut [u8; 64],
    via: &[u8; 64],
    n: usize,
    stations: u64,
    free: u64,
    reach: u64,
    first: usize,
) -> u64
    requires { (n < 64) × Augmenting fits.now owner.old n stations free reach via.now first }
    ensures { Matched fits.now owner.new (n + 1) stations result }
{
    let mut c = n as u8;
    let mut s = first;
    let mut rest = reach;
    while !bitset::contains(free, s) {
        let next = owner[s];
        owner[s] = c;
        c = next;
        rest &= !bitset::singleton(s);
        s = via[s] as usize;
    }
    owner[s] = c;
    free & !bitset::singleton(s)
}

// Matches the component n too: with a free station that can take it, and otherwise along an augmenting path. The result is the stations that are then free.
// By hand: `owner` and `free` make no struct with a ghost field, since `Matched` has the assignment in it, and a ghost field takes a fact with one proof alone.
fn extend(
    fits: &[u64; 64],
    owner: &mut [u8; 64],
    via: &mut [u8; 64],
    n: usize,
    stations: u64,
    free: u64,
) -> Option<u64>
    requires { (n < 64) × Inside fits.now (n + 1) stations × Matched fits.now owner.old n stations free }
    ensures { Extended fits.now owner.new via.new n stations result }
{
    let direct = fits[n] & free;
    if direct != 0 {
        let s = bitset::lowest(direct) as usize;
        owner[s] = n as u8;
        return Some(free & !bitset::singleton(s));
    }
    let reach = reachable(fits, owner, stations, free, via);
    let hit = fits[n] & reach;
    if hit == 0 {
        return None;
    }
    let left = augment(
        fits,
        owner,
        via,
        n,
        stations,
        free,
        reach,
        bitset::lowest(hit) as usize,
    );
    Some(left)
}

// By hand: an array and how many of its words count, no slice: its callers' promises (`Side`, `Settles`) speak of the array, and would have to speak of `take p`.
// Whether the components below p can have stations of their own, each one of those in its word of `fits`: the stations that some assignment leaves out.
pub fn assign(fits: &[u64; 64], p: usize, stations: u64) -> Option<u64>
    requires { (p ≤ 64) × Inside fits.now p stations }
    ensures { Exact fits.now p stations (is_some result) (unwrap_or result 0) }
{
    let mut owner = [0u8; 64];
    let mut via = [0u8; 64];
    let mut free = stations;
    for n in 0..p {
        free = extend(fits, &mut owner, &mut via, n, stations, free)?;
    }
    let spare = reachable(fits, &owner, stations, free, &mut via);
    Some(spare)
}
