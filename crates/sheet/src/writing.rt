// The sheet of what is left, written into a lent buffer.
ghost use Rattle.std.specs.Prelude.{◌≡◌, [], ◌≤◌, ◌<◌, ◌^◌, length};
ghost use Rattle.writer.specs.inner.Writer.{Wrote};
ghost use Rattle.circuit.specs.inner.Tables.{Square};
ghost use Rattle.sheet.specs.Layout.{entry_bytes, entries_bytes, bytes_of};
ghost use Rattle.sheet.specs.Write.{entry_of, page_of};
ghost use Rattle.sheet.specs.inner.Writing.{said};

use writer::{put_byte, put_text};

// The fields of a record that is written: none, the fixed next station alone, or the next set alone.
#[derive(Clone, Copy)]
enum Fields {
    Free,
    Fixed(u8),
    Next(u64),
}

// What the record of a station of n says, whose legs these are.
fn fields_of(n: usize, legs: u64) -> Fields
    requires { (1 ≤ n) × (n ≤ 64) × (legs < 2 ^ n) }
    ensures { said result ≡ entry_of n legs }
{
    let count = legs.count_ones() as usize;
    if count == n - 1 {
        return Fields::Free;
    }
    let single = count == 1;
    if single {
        return Fields::Fixed(legs.trailing_zeros() as u8 + 1);
    }
    Fields::Next(legs)
}

// How many bytes the record takes: the map, and its field.
fn record_len(fields: Fields) -> usize
    ensures { result ≡ length (entry_bytes (said fields) []) }
{
    match fields {
        Fields::Free => 1,
        Fields::Fixed(station) => 2,
        Fields::Next(set) => 9,
    }
}

// The record: its map, and its field.
// By hand, no Writer, here, in `put_records` and in `put_sheet`: as a station's line, a record is lent what is left of the buffer, and its writer
// says how many bytes it filled (docs/CLAIMS.md, the sheet sent back).
fn put_record(buf: &mut [u8], fields: Fields) -> usize
    requires { length (entry_bytes (said fields) []) ≤ length buf.old }
    ensures { Wrote (entry_bytes (said fields) []) buf.old buf.new result }
{
    match fields {
        Fields::Free => put_byte(buf, 0),
        Fields::Fixed(station) => {
            let at = put_byte(buf, 4);
            at + put_byte(&mut buf[at..], station)
        }
        Fields::Next(set) => {
            let at = put_byte(buf, 1);
            at + put_text(&mut buf[at..], &set.to_le_bytes())
        }
    }
}

// The records of n stations, each into what is left of the buffer.
fn put_records(buf: &mut [u8], n: usize, rows: &[u64; 64]) -> usize
    requires { (n ≤ 64) × Square n rows.now × (length (entries_bytes (page_of n rows.now).entries []) ≤ length buf.old) }
    ensures { Wrote (entries_bytes (page_of n rows.now).entries []) buf.old buf.new result }
{
    let mut at = 0usize;
    for row in &rows[..n] {
        at += put_record(&mut buf[at..], fields_of(n, *row));
    }
    at
}

// The sheet: the number of stations, then the records.
pub(crate) fn put_sheet(buf: &mut [u8], n: usize, rows: &[u64; 64]) -> usize
    requires { (n ≤ 64) × Square n rows.now × (length (bytes_of (page_of n rows.now)) ≤ length buf.old) }
    ensures { Wrote (bytes_of (page_of n rows.now)) buf.old buf.new result }
{
    let at = put_byte(buf, n as u8);
    at + put_records(&mut buf[at..], n, rows)
}

// Its length, known before a byte is written.
// By hand, here, in `put_records` and in `put_sheet`: `Square` is one word of a clause, and a type for it would be built at each of the three calls.
pub(crate) fn sheet_len(n: usize, rows: &[u64; 64]) -> usize
    requires { (n ≤ 64) × Square n rows.now }
    ensures { result ≡ length (bytes_of (page_of n rows.now)) }
{
    let mut len = 1;
    for row in &rows[..n] {
        len += record_len(fields_of(n, *row));
    }
    len
}
