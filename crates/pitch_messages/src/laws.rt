//! Laws of chains: there is one way to cut the front of some bytes into raw messages.

ghost use Rattle.pitch_messages.specs.layers.Chains.{RawsAreLongest, LongestChainIsOne};

/// The laws of chains: the raws that the definitions compute are the longest chain at the start of
/// the bytes, which is as many of them as are asked for unless no raw follows; and there is no
/// other.
pub fn chain_laws()
    ensures computed { RawsAreLongest }
    ensures one { LongestChainIsOne }
{}
