// What a rule says of a table: none or not, and the rows that are left.
// By hand, no Option: `Sound` of specs/Verdict speaks of the rows that are left where it is none too.
#[derive(Clone, Copy, Debug, PartialEq, Eq)]
pub struct Verdict {
    pub none: bool,
    pub left: [u64; 64],
}
