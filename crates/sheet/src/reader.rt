// The records of a sheet, read from left to right.
ghost use Rattle.std.specs.Prelude.{◌≡◌, ◌≤◌, length, drop};
ghost use Rattle.sheet.specs.Layout.{allows, fixes};
ghost use Rattle.sheet.specs.Open.{read_set, read_fixed, read_entry};
ghost use Rattle.sheet.specs.inner.Reader.{IsField, IsRecord};

use circuit::Answer;

// Why a sheet is refused, and the place that goes with the number, in the bytes that were handed over.
#[derive(Clone, Copy, Debug, PartialEq, Eq)]
pub(crate) struct Fault {
    pub(crate) answer: Answer,
    pub(crate) at: usize,
}

// The stations that a field allows, and the offset in the part where it ends.
#[derive(Clone, Copy)]
struct Stations {
    set: u64,
    end: usize,
}

// A record: the stations that may follow its station, those that may come before it, and the offset in the part where it ends.
#[derive(Clone, Copy)]
pub(crate) struct Record {
    pub(crate) next: u64,
    pub(crate) prev: u64,
    pub(crate) end: usize,
}

// The set at an offset of the part, where its bit stands; an absent one allows all stations.
fn read_set(part: &[u8], at: usize, n: usize, present: bool) -> Result<Stations, Fault>
    requires { (at ≤ length part.now) × (n ≤ 64) }
    ensures { IsField (read_set n present (drop at part.now)) allows part.now result }
{
    if !present {
        return Ok(Stations { set: !0, end: at });
    }
    let Some(bytes) = part[at..].first_chunk() else {
        return Err(Fault {
            answer: Answer::CutSheet,
            at: part.len(),
        });
    };
    let set = u64::from_le_bytes(*bytes);
    if bitset::full(n) < set {
        return Err(Fault {
            answer: Answer::StrayStation,
            at,
        });
    }
    Ok(Stations { set, end: at + 8 })
}

// The fixed station at an offset of the part, where its bit stands, as a set of one; an absent one allows all stations.
// By hand: one function with `read_set`, over the width W and a closure of `&[u8; W]` that parses, was tried: the check does not cover a bound
// `Fn` that names a const parameter. Over slices each closure would have to be promised its length, which is no plainer.
fn read_fixed(part: &[u8], at: usize, n: usize, present: bool) -> Result<Stations, Fault>
    requires { (at ≤ length part.now) × (n ≤ 64) }
    ensures { IsField (read_fixed n present (drop at part.now)) fixes part.now result }
{
    if !present {
        return Ok(Stations { set: !0, end: at });
    }
    if at == part.len() {
        return Err(Fault {
            answer: Answer::CutSheet,
            at,
        });
    }
    let station = part[at] as usize;
    if bitset::outside(1, n, station) {
        return Err(Fault {
            answer: Answer::StrayStation,
            at,
        });
    }
    Ok(Stations {
        set: bitset::singleton(station - 1),
        end: at + 1,
    })
}

// The record at the start of the part, which is the rest of the sheet after the record before.
pub(crate) fn read_record(part: &[u8], n: usize) -> Result<Record, Fault>
    requires { n ≤ 64 }
    ensures { IsRecord (read_entry n part.now) part.now result }
{
    if part.is_empty() {
        return Err(Fault {
            answer: Answer::CutSheet,
            at: 0,
        });
    }
    let map = part[0] as u64;
    let unknown = 8 <= map;
    if unknown {
        return Err(Fault {
            answer: Answer::UnknownBit,
            at: 0,
        });
    }
    let next = read_set(part, 1, n, bitset::contains(map, 0))?;
    let prev = read_set(part, next.end, n, bitset::contains(map, 1))?;
    let fixed = read_fixed(part, prev.end, n, bitset::contains(map, 2))?;
    Ok(Record {
        next: next.set & fixed.set,
        prev: prev.set,
        end: fixed.end,
    })
}
