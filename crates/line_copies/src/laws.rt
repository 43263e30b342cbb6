//! What is kept, and what copies that differ show. These functions do nothing: what they ensure is
//! proved of the definitions alone.

ghost use Rattle.line_copies.specs.Laws.{AreOfNoVenue, LastAreKept, LinesAreAsHonest};

/// Of each of the last 65,536 sequences a copy is kept: of each message that came, where none came
/// whose sequence is greater by 65,536 or more.
pub fn last_sequences_are_kept()
    ensures { LastAreKept }
{}

/// Of a history in which two copies of a sequence differ, no venue is honest, whatever its images
/// are; and what a live end heard speaks of a venue alone only where what it heard on lines does.
/// So where two copies of what came on lines differ, the end's history is honest for no venue.
pub fn copies_that_differ_are_of_no_venue()
    ensures none { AreOfNoVenue }
    ensures lines { LinesAreAsHonest }
{}
