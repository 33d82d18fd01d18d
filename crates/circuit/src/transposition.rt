// The columns of a table: it is transposed.
ghost use Rattle.std.specs.Prelude.{◌≡◌, ◌+◌, ◌*◌, ◌^◌, ◌≤◌};
ghost use Rattle.circuit.specs.Legs.{columns};
ghost use Rattle.circuit.specs.inner.Tables.{Square};
ghost use Rattle.circuit.specs.inner.Columns.{Corner, Pairs, Swapped};

// Which stations have a leg into each station.
pub fn columns(rows: &[u64; 64], n: usize) -> [u64; 64]
    requires { (n ≤ 64) × Square n rows.now }
    ensures { result ≡ columns n rows.now }
{
    let mut words = [0u64; 64];
    words[..n].copy_from_slice(&rows[..n]);
    transpose(&mut words, n);
    words
}

// The same in place, of words that are empty beyond n. The number of a word and the number of a bit in it change places digit by digit, from
// the highest of their six binary digits to the lowest; digits that no station has are left out.
pub fn transpose(words: &mut [u64; 64], n: usize)
    requires { (n ≤ 64) × Corner n words.old }
    ensures { words.new ≡ columns n words.old }
{
    let used = digits(n);
    for b in (0..6).rev() {
        if b < used {
            swap_quarters(words, 1usize << b, CLEAR_AT[b], 1usize << (used - 1 - b));
        }
    }
}

// How many binary digits the numbers below n may have; three at least.
fn digits(n: usize) -> usize
    requires { n ≤ 64 }
    ensures { (result ≤ 6) × (n ≤ 2 ^ result) }
{
    match n {
        0..=8 => 3,
        9..=16 => 4,
        17..=32 => 5,
        _ => 6,
    }
}

// For each digit b the bits whose number has it clear.
const CLEAR_AT: [u64; 6] = [
    0x5555555555555555,
    0x3333333333333333,
    0x0F0F0F0F0F0F0F0F,
    0x00FF00FF00FF00FF,
    0x0000FFFF0000FFFF,
    0x00000000FFFFFFFF,
];

// In each of the first squares of 2 * half words and bits, the upper right quarter and the lower left change places.
fn swap_quarters(words: &mut [u64; 64], half: usize, mask: u64, squares: usize)
    requires { (half ≤ 32) × (squares * (2 * half) ≤ 64) }
    ensures { Swapped half mask squares words.old words.new }
{
    for p in 0..squares {
        swap_square(words, p * (2 * half), half, mask);
    }
}

// The square from word `at` on: each word of its first half with its partner in the second.
fn swap_square(words: &mut [u64; 64], at: usize, half: usize, mask: u64)
    requires { (half ≤ 32) × (at + 2 * half ≤ 64) }
    ensures { Pairs half mask at half words.old words.new }
{
    for i in 0..half {
        let k = at + i;
        let m = k + half;
        let lo = words[k];
        let hi = words[m];
        words[k] = (lo & mask) | ((hi << half) & !mask);
        words[m] = ((lo >> half) & mask) | (hi & !mask);
    }
}
