//! Laws of blocks: one way to cut a stream, in whatever pieces, and one way to pack messages.

ghost use Rattle.std.specs.Prelude.{[]};
ghost use Rattle.unit_packets.specs.layers.CuttingLaws.{CutsAreComputed, CutsAreOne};
ghost use Rattle.unit_packets.specs.Feeding.{StandsFor};
ghost use Rattle.unit_packets.specs.Pieces.{PiecesAreCut, PiecesDoNotMatter};
ghost use Rattle.unit_packets.specs.Pieces.{unread};
ghost use Rattle.unit_packets.specs.layers.Packings.{PackingIsComputed, PackingIsOne};

/// The laws of cutting a stream into blocks: the cutting that the definitions compute is a longest
/// list of blocks with what follows it, and no other cutting of the same bytes is one.
pub fn cutting_laws()
    ensures computed { CutsAreComputed }
    ensures one { CutsAreOne }
{}

/// The laws of feeding a stream in pieces: a new reader stands for no bytes; what a reader put out,
/// and the fault that it keeps, are those of all bytes in one; so other pieces of the same bytes
/// give the same blocks and the same fault.
pub fn feeding_laws()
    ensures begins { StandsFor unread [] }
    ensures cut { PiecesAreCut }
    ensures pieces { PiecesDoNotMatter }
{}

/// The laws of packing: the datagrams that the definitions compute are a packing of the messages,
/// and there is no other.
pub fn packing_laws()
    ensures computed { PackingIsComputed }
    ensures one { PackingIsOne }
{}
