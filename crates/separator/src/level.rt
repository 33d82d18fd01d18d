// One level s: the marks on its pairs of stations, the choices that use every component, and the legs that go. Mark 0 is bare, and mark c + 1 the
// component at place c of `parts`. The code needs no n, so it reads a table as one of 64 stations.
ghost use Rattle.std.specs.Prelude.{◌≡◌, true, false, ◌&&◌, ◌^◌, ◌<◌, ◌≤◌, is_some, unwrap_or};
ghost use Rattle.bitset.specs.Sets.{has, set_of};
ghost use Rattle.matching.specs.Matching.{Inside};
ghost use Rattle.separator.specs.Components.{components};
ghost use Rattle.separator.specs.Level.{joins, stands, marked};
ghost use Rattle.separator.specs.inner.Reach.{Listed};
ghost use Rattle.separator.specs.inner.Spares.{part_of, CoreOf, EndsOf, Side, Settled, SparesOf, cut_row, Cut};

use crate::reach::{grown, led_from};
use bitset::Members;
use circuit::Network;

// The stations that some out-choice and some in-choice of a level leave free for a bare leg.
#[derive(Clone, Copy)]
pub(crate) struct Spares {
    pub(crate) out: u64,
    pub(crate) into: u64,
}

// Two sets of stations of a component: from each of `back`, legs inside it lead to all of `ahead`, and no further. `beyond` has the stations that have a leg from
// `ahead`.
#[derive(Clone, Copy)]
pub(crate) struct Core {
    pub(crate) ahead: u64,
    pub(crate) back: u64,
    pub(crate) beyond: u64,
}

// The tails i and the heads j of some pairs (i, j).
#[derive(Clone, Copy, PartialEq, Eq)]
pub struct Ends {
    pub tails: u64,
    pub heads: u64,
}

// The level s of a table, and the components outside it: the first `count` words of `parts`.
// By hand: an array and its length, since there is no heap; a mark is a number, as `stands` and `marked` of specs/Level have it.
#[derive(Drop)]
pub(crate) struct Level<'a> {
    pub(crate) net: &'a Network,
    pub(crate) s: u64,
    pub(crate) parts: &'a [u64; 64],
    pub(crate) count: usize,
    ghost most: { count ≤ 64 },
    ghost low: { s < 2 ^ net.now.n },
    ghost listed: { Listed (components net.now.n net.now.rows s) parts.now count },
}

impl Level<'_> {
    // The component of the mark m; bare has none.
    fn part(&self, m: usize) -> u64
        requires { m ≤ 64 }
        ensures { result ≡ part_of self.now.parts.now m }
    {
        if m == 0 {
            return 0;
        }
        self.parts[m - 1]
    }

    // The core of the component's lowest station: what it leads to, and what leads to it. Where there is no component, as for bare, it is empty.
    fn core(&self, part: u64) -> Core
        ensures { CoreOf self.now.net.now.rows part result }
    {
        if part == 0 {
            return Core {
                ahead: 0,
                back: 0,
                beyond: 0,
            };
        }
        let first = 1u64 << part.trailing_zeros();
        let led = led_from(&self.net.rows, part, first);
        Core {
            ahead: led.all,
            back: grown(&self.net.cols, part, first),
            beyond: led.beyond,
        }
    }

    // The stations of s that the component joins i to. A way in that meets the core's back leads to all that is ahead, so only what lies beside that is walked.
    fn joined(&self, part: u64, core: Core, i: usize) -> u64
        requires { (i < 64) × CoreOf self.now.net.now.rows part core }
        ensures { result ≡ set_of 64 (λ j. has self.now.s j && joins 64 self.now.net.now.rows part i j) }
    {
        let rows = &self.net.rows;
        let into = rows[i] & part;
        if into & core.back == 0 {
            return led_from(rows, part, into).beyond & self.s;
        }
        (core.beyond | led_from(rows, part & !core.ahead, into & !core.ahead).beyond) & self.s
    }

    // The stations j of s for which the mark m stands from i to j.
    fn heads_from(&self, m: usize, core: Core, i: usize) -> u64
        requires { (i < 64) × (m ≤ 64) × CoreOf self.now.net.now.rows (part_of self.now.parts.now m) core }
        ensures { result ≡ set_of 64 (λ j. has self.now.s j && stands 64 self.now.net.now.rows self.now.parts.now i j m) }
    {
        if m == 0 {
            return self.net.rows[i] & self.s;
        }
        self.joined(self.parts[m - 1], core, i)
    }

    // The ends of the pairs (i, j) on which the mark m stands: i and j are different stations of s.
    fn ends(&self, m: usize) -> Ends
        requires { m ≤ 64 }
        ensures { EndsOf (λ i j. marked 64 self.now.net.now.rows self.now.s self.now.parts.now i j m) result.tails result.heads }
    {
        let core = self.core(self.part(m));
        let mut tails = 0u64;
        let mut heads = 0u64;
        for i in Members::of(self.s) {
            let more = self.heads_from(m, core, i) & !(1u64 << i);
            tails = bitset::insert_if(tails, i, more);
            heads |= more;
        }
        Ends { tails, heads }
    }

    // The ends of the pairs with some mark; `out` and `into` get the tails and the heads of each component.
    // By hand: two arrays of words, and not one of `Ends`, since `matching::assign` takes an array of words.
    fn marks(&self, out: &mut [u64; 64], into: &mut [u64; 64]) -> Ends
        ensures { Side (marked 64 self.now.net.now.rows self.now.s self.now.parts.now) self.now.count out.new result.tails
            × Side (λ x y. marked 64 self.now.net.now.rows self.now.s self.now.parts.now y x) self.now.count into.new result.heads }
    {
        let bare = self.ends(0);
        let mut tails = bare.tails;
        let mut heads = bare.heads;
        for c in 0..self.count {
            let through = self.ends(c + 1);
            out[c] = through.tails;
            into[c] = through.heads;
            tails |= through.tails;
            heads |= through.heads;
        }
        Ends { tails, heads }
    }

    // One side, out or in: `fits` has the stations that can take each component, and `some` those with a mark. There is a choice if every station of s has a
    // mark and the components can be assigned; then the spare stations can take a bare leg instead.
    fn settle(&self, fits: &[u64; 64], some: u64) -> Option<u64>
        requires { Inside fits.now self.now.count self.now.s }
        ensures { Settled fits.now self.now.count self.now.s some (is_some result) (unwrap_or result 0) }
    {
        if self.s & !some != 0 {
            return None;
        }
        matching::assign(fits, self.count, self.s)
    }

    // The spare stations, out and in, or none.
    pub(crate) fn spares(&self) -> Option<Spares>
        ensures { SparesOf self.now.net.now.n self.now.net.now.rows self.now.s result }
    {
        let mut out = [0u64; 64];
        let mut into = [0u64; 64];
        let some = self.marks(&mut out, &mut into);
        let leaving = self.settle(&out, some.tails);
        let entering = self.settle(&into, some.heads);
        let out = leaving?;
        let into = entering?;
        Some(Spares { out, into })
    }
}

// Word i of a station of s: of the stations of s it keeps those in `into` if i is in `out`, none otherwise.
fn cut_word(w: u64, s: u64, out: u64, into: u64, i: usize) -> u64
    requires { (i < 64) × (has s i ≡ true) }
    ensures { result ≡ cut_row s out into i w }
{
    if bitset::contains(out, i) {
        w & (!s | into)
    } else {
        w & !s
    }
}

// Cuts the word of every station of s, and answers whether a word is another one. The rows and the columns of a table stay those of one table if the columns are
// cut with `out` and `into` swapped.
pub(crate) fn cut(words: &mut [u64; 64], s: u64, out: u64, into: u64) -> bool
    ensures { Cut s out into words.old words.new × (result ≡ false → words.new ≡ words.old) }
{
    let mut struck = false;
    for i in Members::of(s) {
        let word = words[i];
        let left = cut_word(word, s, out, into, i);
        struck = struck | (left != word);
        words[i] = left;
    }
    struck
}
