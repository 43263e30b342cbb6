//! The laws. These functions do nothing: what they ensure is proved of the definitions alone.

ghost use Rattle.live_laws.specs.Laws.{HearersAreHonest, CarriedIsHeard, BooksAreTheVenues};
ghost use Rattle.live_laws.specs.Laws.{NoCopiesDiffer, HearingStays, RunsHaveTheText};
ghost use Rattle.live_laws.specs.Laws.{TextsAreCommands, RunsHaveTheCommands};

/// A client beside a run has its books. Where each block that came to a live client on a line
/// stands in a datagram that the run of a live venue sent for that unit, in any order, any number
/// of times or not at all, and the bytes of each of its connections with a Spin Server begin what
/// was put at one place of that unit's, what it hears is honest: each book that it writes at its
/// end is that of the venue's unit. Of what proxies say nothing is asked.
pub fn a_client_beside_a_run_has_its_books()
    ensures honest { HearersAreHonest }
    // By the calls of both alone.
    ensures carried { CarriedIsHeard }
    ensures books { BooksAreTheVenues }
    // No two copies of a message differ.
    ensures agree { NoCopiesDiffer }
    // All this still came of it, whatever calls the venue makes later.
    ensures stays { HearingStays }
{}

/// The units of a live venue have the text of its input: at any time of a run their messages, and
/// the fault, are those of the whole text once that has ended, and before of its whole lines,
/// however it was cut into pieces and whatever clients did. Where it has no fault, each unit has
/// the messages of the commands that the text has for it, in their order, and accepted each.
pub fn units_have_the_text_of_the_input()
    ensures text { RunsHaveTheText }
    ensures texts { TextsAreCommands }
    ensures commands { RunsHaveTheCommands }
{}
