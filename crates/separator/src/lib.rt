// One separator: levels from a seed, components outside a level, marks, and the rule of one level.
#![tactic(auto)]

mod level;
mod reach;

ghost use Rattle.std.specs.Prelude.{false, ◌≡◌, ◌^◌, ◌<◌};
ghost use Rattle.separator.specs.Level.{level};
ghost use Rattle.separator.specs.inner.Reach.{Linked};

use crate::level::Level;
use circuit::Network;
pub use level::Ends;
pub use reach::{Led, Levels, components_of, grown, led_from, levels_from, neighbours};

// What was taken of a rule, that of a level or a longer one: whether the verdict is none, and whether a leg may have gone.
// By hand: two flags, since a longer rule may strike a leg and then give none.
#[derive(Clone, Copy, PartialEq, Eq)]
pub struct Taken {
    pub none: bool,
    pub struck: bool,
}

// The rule of the level s: strikes its legs from the rows and, alike, from the columns. `nbr` has the neighbours of the table as it then is, before and after:
// they are gathered again only where a leg went.
pub fn strike(net: &mut Network, nbr: &mut [u64; 64], s: u64) -> Taken
    requires { (s < 2 ^ net.old.n) × Linked net.old.n net.old.rows nbr.old }
    ensures { (net.new.n ≡ net.old.n)
        × (level net.old.n net.old.rows s ≡ record { none = result.none; left = net.new.rows })
        × Linked net.new.n net.new.rows nbr.new
        × (result.struck ≡ false → net.new.rows ≡ net.old.rows) }
{
    let mut parts = [0u64; 64];
    let count = reach::components_of(nbr, bitset::full(net.n) & !s, &mut parts);
    let level = Level {
        net,
        s,
        parts: &parts,
        count,
    };
    let Some(spares) = level.spares() else {
        return Taken {
            none: true,
            struck: false,
        };
    };
    let struck = level::cut(&mut net.rows, s, spares.out, spares.into);
    if !struck {
        return Taken {
            none: false,
            struck: false,
        };
    }
    level::cut(&mut net.cols, s, spares.into, spares.out);
    reach::neighbours(&net.rows, &net.cols, net.n, nbr);
    Taken {
        none: false,
        struck: true,
    }
}
