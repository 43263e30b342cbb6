//! Laws of captures: one way to cut a file into records, whatever pieces it comes in.

ghost use Rattle.std.specs.Prelude.{[]};
ghost use Rattle.pcap_feed.specs.layers.Records.{RecordsAreComputed, RecordsAreOne};
ghost use Rattle.pcap_feed.specs.Feeding.{HoldsCapture, CapturePiecesAreCut};
ghost use Rattle.pcap_feed.specs.Feeding.{CapturePiecesDoNotMatter, unfed};

/// The laws of feeding a file in pieces: a new reader stands for no bytes; what a reader put out,
/// and the fault that it keeps, are those of all bytes in one; so other pieces of the same bytes
/// give the same records and the same fault.
pub fn feeding_laws()
    ensures begins { HoldsCapture unfed [] }
    ensures cut { CapturePiecesAreCut }
    ensures pieces { CapturePiecesDoNotMatter }
{}

/// The laws of cutting: the cutting that the definitions compute is a longest list of records with
/// what follows it, and no other cutting of the same bytes is one.
pub fn cutting_laws()
    ensures computed { RecordsAreComputed }
    ensures one { RecordsAreOne }
{}
