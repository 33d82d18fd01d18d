// The chain step on words: the compulsory legs by the stations that they enter, and walks against them from the ends of the chains. The columns are not read.
ghost use Rattle.std.specs.Prelude.{false, not, ◌||◌, List, ◌≡◌, ℕ, ◌+◌, ◌^◌, ◌<◌, ◌≤◌, eqb, ltb, length, replicate};
ghost use Rattle.std.specs.Int.Bits.{bit_and};
ghost use Rattle.std.specs.Int.Count.{ones};
ghost use Rattle.bitset.specs.Sets.{set_of};
ghost use Rattle.bitset.specs.Upto.{row};
ghost use Rattle.circuit.specs.Legs.{columns, without};
ghost use Rattle.circuit.specs.State.{stray};
ghost use Rattle.circuit.specs.inner.Tables.{Square};
ghost use Rattle.filter.specs.Chain.{nexts, joined, chain};
ghost use Rattle.filter.specs.inner.Chains.{compulsory_word, compulsory_words, CompulsoryTold, ChainsOf, ShortLoop, closed};
ghost use Rattle.filter.specs.inner.Steps.{RowsLeft};

use crate::singles::{is_single, single_words};
use separator::Taken;

// Of the compulsory legs: the stations that one leaves, and those that one enters.
#[derive(Clone, Copy)]
struct CompulsoryLegs {
    leave: u64,
    enter: u64,
}

// The compulsory legs of a row: its only leg, or those to a station that has no other leg in; `sole` has these stations.
fn compulsory_word(word: u64, sole: u64) -> u64
    ensures { result ≡ compulsory_word word sole }
{
    if is_single(word) { word } else { word & sole }
}

// Has the word two members, or one of the set?
fn clashes(w: u64, set: u64) -> bool
    ensures { result ≡ ltb 1 (ones w) || not (eqb (bit_and set w) 0) }
{
    if w == 0 {
        return false;
    }
    (w & (w - 1) != 0) | (set & w != 0)
}

// Station i goes to the word of the station that its leg enters, if it has one: to the columns of the rows below i, row i joins.
fn add_leg(legs: &mut [u64; 64], i: usize, w: u64)
    requires { (i < 64) × (ones w ≤ 1) }
    ensures { (m : List ℕ) → row m i ≡ w → legs.old ≡ columns i m → legs.new ≡ columns (i + 1) m }
{
    if w != 0 {
        let j = bitset::lowest(w) as usize;
        legs[j] |= 1u64 << i;
    }
}

// The compulsory legs of the first n rows, into `legs` by the stations that they enter. None where two leave or enter one station: it ends at the first
// row whose legs clash with another.
fn compulsory_legs(
    rows: &[u64; 64],
    n: usize,
    sole: u64,
    legs: &mut [u64; 64],
) -> Option<CompulsoryLegs>
    requires { (n ≤ 64) × Square n rows.now × (legs.old ≡ replicate 64 0) }
    ensures { CompulsoryTold n (compulsory_words n rows.now sole) result legs.new }
{
    let mut leave = 0u64;
    let mut enter = 0u64;
    for i in 0..n {
        let w = compulsory_word(rows[i], sole);
        if clashes(w, enter) {
            return None;
        }
        add_leg(legs, i, w);
        leave = bitset::insert_if(leave, i, w);
        enter |= w;
    }
    Some(CompulsoryLegs { leave, enter })
}

// The stations that 1 to `most` legs lead to from a, by the lowest leg of each. The code needs no n, so the promise is for any n.
fn joined_from(legs: &[u64; 64], most: usize, a: usize) -> u64
    requires { a < 64 }
    ensures { (n : ℕ) → n ≤ 64 → a < n → Square n legs.now → result ≡ set_of n (joined n (nexts n legs.now) most a) }
{
    let mut at = a;
    let mut met = 0u64;
    for _k in 0..most {
        let w = legs[at];
        if w == 0 {
            return met;
        }
        at = bitset::lowest(w) as usize;
        met |= 1u64 << at;
    }
    met
}

// The chains, each from its end: `prev` has the legs into each station, and `into` the stations that have one. Where the chain is closed by a leg from
// its end, `closing` gets the station that the leg enters. Answers all stations that are met.
fn find_chains(prev: &[u64; 64], n: usize, into: u64, ends: u64, closing: &mut [u64; 64]) -> u64
    requires { (2 ≤ n) × (n ≤ 64) × (ends < 2 ^ n) × Square n prev.now }
    ensures { ChainsOf n (nexts n prev.now) into ends closing.new result }
{
    let mut met = ends;
    for b in bitset::Members::of(ends) {
        let chain = joined_from(prev, n - 2, b);
        closing[b] = chain & !into;
        met |= chain;
    }
    met
}

// Do legs close a loop over fewer than all stations? `rest` has the stations with a leg that no chain meets: they are on loops.
fn short_loop(prev: &[u64; 64], n: usize, rest: u64) -> bool
    requires { (1 ≤ n) × (n ≤ 64) × (rest < 2 ^ n) × Square n prev.now }
    ensures { ShortLoop n (nexts n prev.now) rest result }
{
    if rest == 0 {
        return false;
    }
    let a = rest.trailing_zeros() as usize;
    bitset::contains(joined_from(prev, n - 1, a), a)
}

// Strikes the closing legs, each out of an end. Answers whether a leg went. The code needs no n, so the promise is for any n.
fn strike_closing(rows: &mut [u64; 64], ends: u64, closing: &[u64; 64]) -> bool
    ensures { ((n : ℕ) → n ≤ 64 → ends < 2 ^ n → stray n rows.old ≡ false → rows.new ≡ without n rows.old (closed ends closing.now))
        × (result ≡ false → rows.new ≡ rows.old) }
{
    let mut struck = false;
    for b in bitset::Members::of(ends) {
        let left = bitset::difference(rows[b], closing[b]);
        struck |= left != rows[b];
        rows[b] = left;
    }
    struck
}

// The chain step on the rows. Where no station has one leg only, no leg is compulsory.
pub(crate) fn chain_rows(rows: &mut [u64; 64], n: usize) -> Taken
    requires { (2 ≤ n) × (n ≤ 64) × (stray n rows.old ≡ false) }
    ensures { RowsLeft n (chain n rows.old) result rows.old rows.new }
{
    let next = single_words(rows, n);
    let sole = next.sole();
    if (next.once == 0) & (sole == 0) {
        return Taken {
            none: false,
            struck: false,
        };
    }
    let mut legs = [0u64; 64];
    let Some(CompulsoryLegs { leave, enter }) = compulsory_legs(rows, n, sole, &mut legs) else {
        return Taken {
            none: true,
            struck: false,
        };
    };
    let ends = enter & !leave;
    let mut closing = [0u64; 64];
    let met = find_chains(&legs, n, enter, ends, &mut closing);
    if short_loop(&legs, n, enter & !met) {
        return Taken {
            none: true,
            struck: false,
        };
    }
    let struck = strike_closing(rows, ends, &closing);
    Taken {
        none: false,
        struck,
    }
}
