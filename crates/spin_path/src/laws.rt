//! Laws of images over bytes: however these are delayed or cut, no image is bad.

ghost use Rattle.spin_path.specs.PathLaws.{ImagesAreWhole, NeverAnswered, MovesStay, AllAreTaken};
ghost use Rattle.spin_path.specs.PathLaws.{SpareIsUnheard};

/// The law of images over bytes: whatever a client asks for, and wherever its connections are cut,
/// of a Spin Server's bytes no image is bad, each that is finished is the image of the unit's
/// messages, and no sequence is advertised past them. So no change of a client says that an image
/// was bad.
pub fn images_are_whole()
    // Of every list of messages and all that happens at the two ends of connections.
    ensures whole { ImagesAreWhole }
    // Of every history in which no image is bad, and an item that was heard last.
    ensures never { NeverAnswered }
{}

/// Moves stay moves where the venue accepts more messages, and a client may hear all that its link
/// told at once, whatever room the items' lists have.
pub fn moves_go_on()
    ensures stay { MovesStay }
    ensures taken { AllAreTaken }
    ensures spare { SpareIsUnheard }
{}
