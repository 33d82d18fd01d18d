// The splits with at most three roads: sums of up to three words of a spanning tree.
ghost use Rattle.std.specs.Prelude.{◌≡◌, ◌&&◌, ℕ, ◌+◌, ◌-◌, ◌^◌, ◌<◌, ◌≤◌};
ghost use Rattle.std.specs.Int.Bits.{bit_xor};
ghost use Rattle.bitset.specs.Sets.{any};
ghost use Rattle.bitset.specs.Upto.{row};
ghost use Rattle.circuit.specs.Legs.{difference};
ghost use Rattle.roads.specs.Cut.{split, some_split};
ghost use Rattle.roads.specs.inner.Trees.{tried, three};
ghost use Rattle.roads.specs.inner.Promises.{Profile, Marked};

use crate::marking::Marks;
use crate::tree::spanning;

// What the search for splits reads: a two-way table of n stations, its must-drive roads, and the words of a spanning tree.
#[derive(Drop)]
pub(crate) struct Search<'a> {
    pub(crate) n: usize,
    // The n stations.
    pub(crate) all: u64,
    pub(crate) rows: &'a [u64; 64],
    pub(crate) must: &'a [u64; 64],
    // The roads that are not must-drive.
    pub(crate) free: &'a [u64; 64],
    pub(crate) words: &'a [u64; 64],
    ghost profile: { Profile n rows.now must.now },
    ghost whole: { all ≡ 2 ^ n - 1 },
    ghost others: { free.now ≡ difference rows.now must.now },
    ghost small: { (i : ℕ) → i < n → row words.now i < 2 ^ n },
}

impl Search<'_> {
    // The sums of y and a word up to b. A split that says that there is no round ends the search, here and in the functions below.
    fn try_third(&self, y: u64, b: usize, marks: &mut Marks) -> bool
        requires { (b < self.now.n) × (y < 2 ^ self.now.n) }
        ensures { Marked self.now.n self.now.rows.now self.now.must.now marks.old result marks.new
            (λ f. any (b + 1) (λ a. split self.now.n (bit_xor y (row self.now.words.now a)) && f (bit_xor y (row self.now.words.now a)))) }
    {
        for a in 0..b + 1 {
            let x = y ^ self.words[a];
            if self.judge(x, marks) {
                return true;
            }
        }
        false
    }

    // The sums of word c, one before it, and one up to that.
    fn try_second(&self, c: usize, marks: &mut Marks) -> bool
        requires { c < self.now.n }
        ensures { Marked self.now.n self.now.rows.now self.now.must.now marks.old result marks.new
            (λ f. any c (λ b. any (b + 1) (λ a. split self.now.n (three (row self.now.words.now) c b a) && f (three (row self.now.words.now) c b a)))) }
    {
        for b in 0..c {
            let y = self.words[c] ^ self.words[b];
            if self.try_third(y, b, marks) {
                return true;
            }
        }
        false
    }

    // The sums of up to three of the n words: word 0 is empty.
    fn try_all(&self, marks: &mut Marks) -> bool
        ensures { Marked self.now.n self.now.rows.now self.now.must.now marks.old result marks.new (tried self.now.n (row self.now.words.now) self.now.n) }
    {
        for c in 0..self.n {
            if self.try_second(c, marks) {
                return true;
            }
        }
        false
    }
}

// Marks what all splits say. Does one say that there is no round?
pub(crate) fn mark_all(rows: &[u64; 64], must: &[u64; 64], n: usize, marks: &mut Marks) -> bool
    requires { Profile n rows.now must.now }
    ensures { Marked n rows.now must.now marks.old result marks.new (some_split n) }
{
    let Some(words) = spanning(rows, n) else {
        return true;
    };
    let search = Search {
        n,
        all: bitset::full(n),
        rows,
        must,
        free: &circuit::difference(rows, must),
        words: &words,
    };
    search.try_all(marks)
}
