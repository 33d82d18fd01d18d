// Neighbours, levels from a seed, components outside a set, and what a set leads to. A set of stations is a word, bit k for station k.
// The words of the neighbours are all that levels and components need of a table, so none of them takes one. What grows along words is promised of these words
// alone, read as those of 64 stations. The levels are promised for any table t of n stations with `Linked n t nbr`: the words are its neighbours. Of other words
// nothing is said.
ghost use Rattle.std.specs.Prelude.{List, ◌≡◌, ℕ, ◌^◌, ◌<◌, ◌≤◌};
ghost use Rattle.circuit.specs.Legs.{leg, columns, neighbours, table_of};
ghost use Rattle.circuit.specs.inner.Tables.{Square};
ghost use Rattle.separator.specs.Levels.{neighbourhood};
ghost use Rattle.separator.specs.Components.{grow, components_from};
ghost use Rattle.separator.specs.inner.Reach.{Linked, Mutual, Listed, LevelsOf, LedFrom};

// Level k stands at `level[k]`, for k below `count`; the other words are 0. The stations in no level are in `unreached`.
// By hand: an array with its length beside, since there is no heap.
#[derive(Clone, Copy)]
pub struct Levels {
    pub level: [u64; 64],
    pub count: usize,
    pub unreached: u64,
}

// The stations that a set leads to, and those that one of them has a leg to.
#[derive(Clone, Copy)]
pub struct Led {
    pub all: u64,
    pub beyond: u64,
}

// Gathers the neighbours: into the word of each station those with a leg to or from it. Words beyond n are 0.
// By hand: takes no `Network`, since the promise is for any square table, one with words beyond n or self legs too.
pub fn neighbours(rows: &[u64; 64], cols: &[u64; 64], n: usize, nbr: &mut [u64; 64])
    requires { (n ≤ 64) × Square n rows.now × (cols.now ≡ columns n rows.now) }
    ensures { nbr.new ≡ table_of n (neighbours rows.now) }
{
    *nbr = [0u64; 64];
    for i in 0..n {
        nbr[i] = rows[i] | cols[i];
    }
}

// The neighbours of the stations of a set.
fn neighbourhood(nbr: &[u64; 64], set: u64) -> u64
    ensures { (n : ℕ) (t : List ℕ) → Linked n t nbr.now → set < 2 ^ n → result ≡ neighbourhood n t set }
{
    bitset::union_of_rows(nbr, set)
}

// By hand, here and below: no index, the walk ends where nothing new is met, and what it counts is handed back.
// The levels from a seed: each is the neighbours of the last one that no level has yet. The stations that none has are unreached.
pub fn levels_from(nbr: &[u64; 64], n: usize, seed: usize) -> Levels
    requires { (n ≤ 64) × (seed < n) }
    ensures { (t : List ℕ) → Linked n t nbr.now → LevelsOf n t seed result }
{
    let mut level = [0u64; 64];
    let mut count = 0usize;
    let mut seen = 1u64 << seed;
    let mut last = seen;
    while last != 0 {
        level[count] = last;
        count += 1;
        last = neighbourhood(nbr, last) & !seen;
        seen |= last;
    }
    let unreached = bitset::full(n) & !seen;
    Levels {
        level,
        count,
        unreached,
    }
}

// The set `start`, grown inside `room` along the words of its stations. Only the stations that came in last can bring in more, so each word is read once; and
// where nothing is left of the room, no further word is read.
pub fn grown(words: &[u64; 64], room: u64, start: u64) -> u64
    ensures { result ≡ grow 64 64 (leg words.now) room start }
{
    let mut left = room & !start;
    let mut last = start;
    while left != 0 {
        last = bitset::union_of_rows(words, last) & left;
        if last == 0 {
            break;
        }
        left &= !last;
    }
    start | (room & !left)
}

// What `start` leads to inside `room` along the words of its stations, and the members of the words of all these. Each word is read once.
pub fn led_from(words: &[u64; 64], room: u64, start: u64) -> Led
    ensures { LedFrom words.now room start result }
{
    let mut left = room & !start;
    let mut last = start;
    let mut beyond = 0u64;
    while last != 0 {
        let near = bitset::union_of_rows(words, last);
        beyond |= near;
        last = near & left;
        left &= !last;
    }
    Led {
        all: start | (room & !left),
        beyond,
    }
}

// The connected groups of the stations of `outside`, by the words of their neighbours. They come first in `part`, by rising lowest station, and the other words
// are 0; answers how many there are. A group is grown in the rest alone, since no leg joins it to one found before.
// By hand: the array and its length are what `measured_components` hands to C.
pub fn components_of(nbr: &[u64; 64], outside: u64, part: &mut [u64; 64]) -> usize
    ensures { Mutual nbr.now → Listed (components_from 64 64 (leg nbr.now) outside outside) part.new result }
{
    *part = [0u64; 64];
    let mut count = 0usize;
    let mut rest = outside;
    while rest != 0 {
        let c = grown(nbr, rest, 1u64 << rest.trailing_zeros());
        part[count] = c;
        count += 1;
        rest &= !c;
    }
    count
}
