// A node with all stations decided.
ghost use Rattle.std.specs.Prelude.{cond, ◌≡◌, ◌+◌, ◌≤◌, length};
ghost use Rattle.std.specs.Int.Count.{count_trailing_zeros};
ghost use Rattle.finder.specs.Search.{list_in, leaf};
ghost use Rattle.finder.specs.inner.Finders.{stable_of, Kept};

use crate::search::Finder;

// The number of the lowest station of a row.
fn number(legs: u64) -> u8
    ensures { result ≡ count_trailing_zeros 64 legs + 1 }
{
    legs.trailing_zeros() as u8 + 1
}

// Writes the numbers of the first rows.
fn write_list(rows: &[u64; 64], list: &mut [u8])
    requires { length list.old ≤ 64 }
    ensures { list.new ≡ list_in (length list.old) rows.now }
{
    for i in 0..list.len() {
        list[i] = number(rows[i]);
    }
}

impl Finder<'_> {
    // Does the list of its rows pass the list check? Then it is in the lent list.
    pub(crate) fn try_list(&mut self, rows: &[u64; 64]) -> bool
        ensures same { Kept self.old self.new }
        ensures left { self.new.left ≡ self.old.left }
        ensures passes { result ≡ (leaf (stable_of self.old rows.now)).found }
        ensures list { let s = leaf (stable_of self.old rows.now) in self.new.list.now ≡ cond s.found s.list self.old.list.now }
    {
        let mut own = [0u8; 64];
        let own = &mut own[..self.n];
        write_list(rows, own);
        let checked = circuit::check_list_in(rows, self.n, self.limit, 0, own);
        if checked.yes {
            self.list.copy_from_slice(own);
            return true;
        }
        false
    }
}
