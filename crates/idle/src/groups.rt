// The groups of the stations above a level.
ghost use Rattle.std.specs.Prelude.{◌≤◌};

use crate::group::Group;
use crate::ways::Ways;
use separator::Led;

// The first `count` groups are those of `room`, the stations of the levels so far, of which `edge` is the last. No group has the stations `left`.
// By hand: an array and its length, since there is no heap.
#[derive(Drop)]
pub(crate) struct Groups {
    pub(crate) groups: [Group; 32],
    pub(crate) count: usize,
    pub(crate) room: u64,
    pub(crate) edge: u64,
    pub(crate) left: u64,
    ghost few: { count ≤ 32 },
}

impl Groups {
    ghost use Rattle.std.specs.Prelude.{◌≡◌, ◌≢◌, ℕ, ◌+◌, ◌-◌, ◌^◌, ◌<◌};
    ghost use Rattle.std.specs.Int.Bits.{bit_and, bit_or};
    ghost use Rattle.idle.specs.declared.ways.Ways.{Ways};
    ghost use Rattle.idle.specs.inner.Groups.{Part, GroupOf, group_at, Grouping};

    // Those of no level.
    pub(crate) fn none() -> Groups
        ensures { (result.room ≡ 0) × ((w : Ways) → Grouping w result) }
    {
        let none = Led { all: 0, beyond: 0 };
        Groups {
            groups: [Group {
                part: 0,
                ahead: none,
                back: none,
            }; 32],
            count: 0,
            room: 0,
            edge: 0,
            left: 0,
        }
    }

    // One more, that has taken in what it can of the stations that no group has.
    fn push(&mut self, new: Group)
        requires { self.old.count < 32 }
        ensures { (self.new.count ≡ self.old.count + 1) × (self.new.room ≡ self.old.room) × (self.new.edge ≡ self.old.edge)
            × (self.new.left ≡ bit_and self.old.left ((2 ^ 64 - 1) - new.part))
            × ((h : ℕ) → h ≢ self.old.count → group_at self.new.groups h ≡ group_at self.old.groups h)
            × ((w : Ways) → Grouping w self.old → GroupOf w self.old.room new → Grouping w self.new) }
    {
        self.groups[self.count] = new;
        self.count += 1;
        self.left &= !new.part;
    }

    // The groups take in what hangs together with them in the room, which has got the level `level` more. A group that another one has taken in goes.
    fn keep(&mut self, ways: Ways, level: u64)
        requires { Part level self.old.room × ((g : ℕ) → g < self.old.count → GroupOf ways self.old.room (group_at self.old.groups g)) }
        ensures { Grouping ways.entry self.new × (self.new.room ≡ self.old.room) }
    {
        let q = self.count;
        self.count = 0;
        self.left = self.room;
        for g in 0..q {
            let old = self.groups[g];
            if old.part & !self.left == 0 {
                self.push(old.carried(ways, self.left, level, self.edge));
            }
        }
    }

    // Stations that no group has make groups of their own, as long as there is a place for one.
    fn add(&mut self, ways: Ways)
        requires { Grouping ways self.old }
        ensures { Grouping ways.entry self.new × (self.new.room ≡ self.old.room) }
    {
        while self.left != 0 && self.count < 32 {
            self.push(Group::started(ways, self.left));
        }
    }

    // The level `level` joins the room.
    pub(crate) fn regroup(&mut self, ways: Ways, level: u64)
        requires { Grouping ways self.old }
        ensures { Grouping ways.entry self.new × (self.new.room ≡ bit_or self.old.room level) }
    {
        self.room |= level;
        self.keep(ways, level);
        self.add(ways);
        self.edge = level;
    }
}
