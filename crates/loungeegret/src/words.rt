// A work state in words that the caller lends.
ghost use Rattle.std.specs.Prelude.{◌≡◌, ◌++◌, ◌≤◌, length, take, drop, MatchOption, true};
ghost use Rattle.std.proofs.lemmas.List.Edits.{sets};
ghost use Rattle.circuit.specs.Card.{number};
ghost use Rattle.loungeegret.specs.Words.{state_words, out_of_range, loaded, stored_in};
ghost use Rattle.loungeegret.specs.Results.{words_after};
ghost use Rattle.loungeegret.specs.inner.Parts.{Says, cursor_of, cursor_words, moved_in};

use circuit::{Answer, End, Table, Work};
use filter::Cursor;

// Where the words stand that follow the rows of the table, and how many words a state has.
const N: usize = 64;

const LIMIT: usize = 65;

const PLACE: usize = 66;

const MARK: usize = 67;

pub const END_NUMBER: usize = 68;

pub const STATE_WORDS: usize = 69;

// The number for too few words.
// By hand: C is answered by numbers, and this one the card has not.
pub const NO_STATE: u32 = 100;

// The parts of a work state.
#[derive(Clone, Copy)]
pub struct Loaded {
    pub rows: [u64; 64],
    pub n: usize,
    pub limit: usize,
    pub at: Cursor,
}

impl Loaded {
    // The parts that the words say; None, where they are out of range.
    pub fn of(state: &[u64; STATE_WORDS]) -> Option<Loaded>
        ensures { MatchOption result (out_of_range state.now ≡ true) (λ parts. Says parts state.now) }
    {
        if out_of_range(state) {
            return None;
        }
        Some(Loaded {
            rows: load_rows(state),
            n: state[N] as usize,
            limit: state[LIMIT] as usize,
            at: load_cursor(state),
        })
    }
}

// Is the mark or the end out of range? Then the words say the blank state, which is bad.
fn out_of_range(state: &[u64; STATE_WORDS]) -> bool
    ensures { result ≡ out_of_range state.now }
{
    (1 < state[MARK]) | (2 < state[END_NUMBER])
}

fn load_rows(state: &[u64; STATE_WORDS]) -> [u64; 64]
    ensures { result ≡ take 64 state.now }
{
    let mut rows = [0u64; Table::MAX];
    rows.copy_from_slice(&state[..Table::MAX]);
    rows
}

// Place, mark and end, in range.
fn load_cursor(state: &[u64; STATE_WORDS]) -> Cursor
    ensures { result ≡ cursor_of state.now }
{
    Cursor {
        place: state[PLACE] as usize,
        mark: state[MARK] == 1,
        end: End::of_code(state[END_NUMBER]),
    }
}

// The work state that the words say.
pub fn load(state: &[u64; STATE_WORDS]) -> Work
    ensures { result ≡ loaded state.now }
{
    if out_of_range(state) {
        return Work::blank();
    }
    let rows = load_rows(state);
    let at = load_cursor(state);
    Work::new(
        state[N] as usize,
        Table { rows },
        state[LIMIT] as usize,
        at.place,
        at.mark,
        at.end,
    )
}

fn store_rows(state: &mut [u64; STATE_WORDS], rows: &[u64; 64])
    ensures { state.new ≡ rows.now ++ drop 64 state.old }
{
    state[..Table::MAX].copy_from_slice(rows);
}

fn store_cursor(state: &mut [u64; STATE_WORDS], at: Cursor)
    ensures { state.new ≡ sets state.old 66 (cursor_words at) }
{
    state[PLACE] = at.place as u64;
    state[MARK] = at.mark as u64;
    state[END_NUMBER] = at.end.code();
}

pub fn store(state: &mut [u64; STATE_WORDS], work: Work)
    ensures { state.new ≡ stored_in state.old work }
{
    state[N] = work.n as u64;
    state[LIMIT] = work.limit as u64;
    let at = Cursor {
        place: work.place,
        mark: work.mark,
        end: work.end,
    };
    store_cursor(state, at);
    store_rows(state, &work.table.rows);
}

// The rows are stored, where they are other ones.
fn store_changed(state: &mut [u64; STATE_WORDS], rows: &[u64; 64], removed: u32)
    requires { removed ≡ 0 → rows.now ≡ take 64 state.old }
    ensures { state.new ≡ rows.now ++ drop 64 state.old }
{
    let struck = removed != 0;
    if struck {
        store_rows(state, rows);
    }
}

// The number of a call. What a taken one changes of the state goes to the lent words: n and the limit stay.
// By hand: the number is asked, as `refuses` of specs/Results asks it.
pub fn hand_back(
    state: &mut [u64; STATE_WORDS],
    rows: &[u64; 64],
    answer: Answer,
    at: Cursor,
    removed: u32,
) -> u32
    requires { removed ≡ 0 → rows.now ≡ take 64 state.old }
    ensures { (result ≡ number answer) × (state.new ≡ words_after state.old answer (moved_in state.old rows.now at)) }
{
    let number = answer.number();
    let taken = number == 0;
    if taken {
        store_changed(state, rows, removed);
        store_cursor(state, at);
    }
    number
}
