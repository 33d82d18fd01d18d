// The library for other languages. The work state lies in words that the caller lends: a call loads it, makes the call of the
// crate below and puts the state that comes back into the same words. A call on too few words for a state answers a number
// that the card has not, and writes nothing; so no call requires anything of its caller.
#![tactic(auto)]

mod calls;
mod checking;
mod cutting;
mod first;
mod opening;
mod previewing;
mod words;
mod writing;
