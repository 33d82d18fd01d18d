// The pass with a seed: its levels, one after the other.
ghost use Rattle.std.specs.Prelude.{true, ◌≡◌, ◌^◌, ◌<◌, ◌≤◌, take};
ghost use Rattle.separator.specs.Levels.{inner};
ghost use Rattle.separator.specs.inner.Reach.{Linked};
ghost use Rattle.filter.specs.Pass.{pass_over, pass};
ghost use Rattle.filter.specs.inner.Steps.{NextToAll, limited, LevelsBelow, TableLeft};

use circuit::Network;
use separator::{Levels, Taken};

// The rule of the level s, skipped where it has more stations than the limit.
fn take_level(net: &mut Network, nbr: &mut [u64; 64], limit: usize, s: u64) -> Taken
    requires { (s < 2 ^ net.old.n) × Linked net.old.n net.old.rows nbr.old }
    ensures { (net.new.n ≡ net.old.n) × TableLeft (limited net.old.n limit s net.old.rows) result net.old.rows net.new.rows
        × Linked net.new.n net.new.rows nbr.new }
{
    if limit < s.count_ones() as usize {
        return Taken {
            none: false,
            struck: false,
        };
    }
    separator::strike(net, nbr, s)
}

// The levels 1 to m - 1, one after the other, each from the table as it then is; `nbr` has its neighbours.
fn take_levels(net: &mut Network, nbr: &mut [u64; 64], limit: usize, found: &Levels) -> Taken
    requires { (found.now.count ≤ 64) × LevelsBelow net.old.n found.now.count found.now.level × Linked net.old.n net.old.rows nbr.old }
    ensures { (net.new.n ≡ net.old.n)
        × TableLeft (pass_over (inner (take found.now.count found.now.level)) net.old.n limit net.old.rows) result net.old.rows net.new.rows }
{
    let mut struck = false;
    for k in 1..found.count.saturating_sub(1) {
        let taken = take_level(net, nbr, limit, found.level[k]);
        struck |= taken.struck;
        if taken.none {
            return Taken { none: true, struck };
        }
    }
    Taken {
        none: false,
        struck,
    }
}

// Is the seed a neighbour of every other station? Then these are the last level, and no level lies between.
fn is_next_to_all(net: &Network, seed: usize) -> bool
    requires { seed < net.now.n }
    ensures { result ≡ true → NextToAll net.now.n net.now.rows seed }
{
    net.rows[seed] | net.cols[seed] | (1u64 << seed) == bitset::full(net.n)
}

// The pass with a seed. If any station is unreached, the verdict is none before any level is looked at.
pub(crate) fn pass_on(net: &mut Network, limit: usize, seed: usize) -> Taken
    requires { seed < net.old.n }
    ensures { (net.new.n ≡ net.old.n) × TableLeft (pass net.old.n net.old.rows limit seed) result net.old.rows net.new.rows }
{
    if is_next_to_all(net, seed) {
        return Taken {
            none: false,
            struck: false,
        };
    }
    let mut nbr = [0u64; 64];
    separator::neighbours(&net.rows, &net.cols, net.n, &mut nbr);
    let found = separator::levels_from(&nbr, net.n, seed);
    let apart = found.unreached != 0;
    if apart {
        return Taken {
            none: true,
            struck: false,
        };
    }
    if idle::is_idle(net, &nbr, limit, seed, &found) {
        return Taken {
            none: false,
            struck: false,
        };
    }
    take_levels(net, &mut nbr, limit, &found)
}
