//! A law of all that comes to a venue's end. This function does nothing: what it ensures is proved
//! of the definitions alone.

ghost use Rattle.venue_end.specs.layers.Laws.{ImagesAreTheVenues};

/// Whatever came, every Spin Server saw the venue's messages alone and no sequence past them, nor
/// was one told of a sequence past them.
pub fn images_are_the_venues()
    ensures { ImagesAreTheVenues }
{}
