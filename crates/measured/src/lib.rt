// Functions of the inside as C functions, so that they can be timed and compared by themselves. No part of the library.
#![tactic(auto)]

ghost use Rattle.circuit.specs.Legs.{leg};
ghost use Rattle.separator.specs.Components.{components_from};
ghost use Rattle.separator.specs.inner.Reach.{Mutual, Listed};

// The components outside a level, into `part`; answers how many there are. Of words that are not mutual, which no table has, nothing is said.
#[unsafe(no_mangle)]
pub extern "C" fn measured_components(nbr: &[u64; 64], outside: u64, part: &mut [u64; 64]) -> usize
    ensures { Mutual nbr.now → Listed (components_from 64 64 (leg nbr.now) outside outside) part.new result }
{
    separator::components_of(nbr, outside, part)
}
