// The words that the groups of a table follow.
ghost use Rattle.separator.specs.inner.Reach.{Linked};

use circuit::Network;

// A network with its neighbours. Along rows a station leads to others, along columns others lead to it, and along neighbours it hangs together with them.
#[derive(Clone, Copy)]
pub(crate) struct Ways<'a> {
    pub(crate) net: &'a Network,
    pub(crate) nbr: &'a [u64; 64],
    ghost linked: { Linked net.now.n net.now.rows nbr.now },
}
