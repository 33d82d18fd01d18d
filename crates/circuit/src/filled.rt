// What a call hands back that writes to the start of a lent buffer.
use crate::card::Answer;

// `len` bytes are filled: 0 where the call is refused.
// By hand, no Result: `filled` of specs/Fill gives both fields of a refusal too.
#[derive(Clone, Copy, Debug, PartialEq, Eq)]
pub struct Filled {
    pub answer: Answer,
    pub len: usize,
}
