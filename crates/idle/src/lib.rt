// Passes that leave the table as it is, told without striking a leg.
#![tactic(auto)]

mod group;
mod groups;
mod idle;
mod ways;

pub use idle::is_idle;
