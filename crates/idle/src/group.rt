// A group of stations outside a level, known by one of its stations, the pivot. A group need not be whole: what it says of its stations holds of them.
ghost use Rattle.std.specs.Prelude.{◌≡◌, true, ℕ, ◌<◌};
ghost use Rattle.bitset.specs.Sets.{has};
ghost use Rattle.idle.specs.inner.Groups.{Part, Along, Reaches, GroupOf};

use crate::ways::Ways;
use separator::{Led, grown, led_from};

// `part` has stations that hang together with the pivot, `ahead` some that it leads to by legs, and `back` some that lead to it.
#[derive(Clone, Copy)]
pub(crate) struct Group {
    pub(crate) part: u64,
    pub(crate) ahead: Led,
    pub(crate) back: Led,
}

// What a pivot leads to in a room that has got a level more: on from its stations in that level.
pub(crate) fn led_on(words: &[u64; 64], room: u64, from: Led, level: u64) -> Led
    ensures { (wide p : ℕ) → Part room wide → Part level wide → Reaches words.now wide p from → Reaches words.now wide p result }
{
    let more = led_from(words, room & !from.all, from.beyond & level);
    Led {
        all: from.all | more.all,
        beyond: from.beyond | more.beyond,
    }
}

// A set with what hangs together with it in `room`, where only its stations of `edge` have neighbours that are new.
fn hanging(nbr: &[u64; 64], room: u64, set: u64, edge: u64) -> u64
    ensures { (wide p : ℕ) → Part room wide → ((x : ℕ) → has set x ≡ true → Along nbr.now wide p x) → (x : ℕ) → has result x ≡ true → Along nbr.now wide p x }
{
    let rest = room & !set;
    if rest == 0 {
        return set;
    }
    set | grown(nbr, rest, bitset::union_of_rows(nbr, set & edge) & rest)
}

impl Group {
    // The group of the lowest station of `left`, which is its pivot.
    pub(crate) fn started(ways: Ways, left: u64) -> Group
        requires { 0 < left }
        ensures { ((room : ℕ) → Part left room → GroupOf ways.entry room result)
            × ((x : ℕ) × (has left x ≡ true) × (has result.part x ≡ true)) }
    {
        let pivot = bitset::singleton(bitset::lowest(left) as usize);
        let ahead = led_from(&ways.net.rows, left, pivot);
        let back = led_from(&ways.net.cols, left, pivot);
        let part = grown(ways.nbr, left, ahead.all | back.all);
        Group { part, ahead, back }
    }

    // The group in a room that has got the level `level` more; `left` has what no other group has of it, and `edge` is the level that came before.
    pub(crate) fn carried(self, ways: Ways, left: u64, level: u64, edge: u64) -> Group
        ensures { (room : ℕ) → Part left room → Part level room → GroupOf ways.entry room self → GroupOf ways.entry room result }
    {
        let ahead = led_on(&ways.net.rows, left, self.ahead, level);
        let back = led_on(&ways.net.cols, left, self.back, level);
        let part = hanging(
            ways.nbr,
            left,
            self.part | ahead.all | back.all,
            edge | level,
        );
        Group { part, ahead, back }
    }
}
