// Is a table two-way, and are its must-drive roads roads of it?
ghost use Rattle.std.specs.Prelude.{◌≡◌, ◌≤◌};
ghost use Rattle.circuit.specs.inner.Tables.{Square};
ghost use Rattle.roads.specs.Cut.{mirrored, inside, is_two_way, are_roads};

// A table is its own transpose where each leg has its reverse.
// Here and below every word is looked at: a loop that stops early (`==` of slices, `all`) is not vectorised, which took longer.
fn is_mirrored(rows: &[u64; 64], n: usize) -> bool
    requires { (n ≤ 64) × Square n rows.now }
    ensures { result ≡ mirrored n rows.now }
{
    let cols = circuit::columns(rows, n);
    let mut ok = true;
    for i in 0..n {
        ok = ok & (rows[i] == cols[i]);
    }
    ok
}

// Is each must-drive leg a leg of the table?
fn is_inside(must: &[u64; 64], rows: &[u64; 64]) -> bool
    ensures { result ≡ inside must.now rows.now }
{
    let mut ok = true;
    for i in 0..64 {
        ok = ok & (must[i] & !rows[i] == 0);
    }
    ok
}

// Is the table two-way (else 11)?
pub fn is_two_way(rows: &[u64; 64], n: usize) -> bool
    requires { (n ≤ 64) × Square n rows.now }
    ensures { result ≡ is_two_way n rows.now }
{
    n >= 3 && is_mirrored(rows, n)
}

// Does every must-drive road stand, and is it given both ways (else 12)?
pub fn are_roads(rows: &[u64; 64], must: &[u64; 64]) -> bool
    ensures { result ≡ are_roads rows.now must.now }
{
    is_inside(must, rows) && is_mirrored(must, 64)
}
