//! Laws of texts that come in pieces. These functions do nothing: what they ensure is proved of the
//! definitions alone.

ghost use Rattle.std.specs.Prelude.{List, ℕ};
ghost use Rattle.unit_commands.specs.layers.PiecesLaws.{TextsAreCut, TextCutsAreOne, TextCutsGrow};
ghost use Rattle.unit_commands.specs.layers.PiecesLaws.{PieceIsRead, PiecesAreRead, EndsLine};
ghost use Rattle.unit_commands.specs.layers.PiecesLaws.{SaysInTurn};
ghost use Rattle.unit_commands.specs.layers.PiecesLaws.{SaysByPieces, SaysAtEnd, GivesInTurn};

use text_lines::Grammar;

/// The laws of cutting a text at its last line feed: its whole lines and its last line are a cut of
/// it, there is no other, and of a text that grows the last line alone is cut again.
pub fn cutting_laws()
    ensures cut { TextsAreCut }
    ensures one { TextCutsAreOne }
    ensures grown { TextCutsGrow }
{}

/// The laws of reading a text in pieces: what they leave unread is what all bytes in one leave.
#[tactic(auto, using(crate::proofs::ReadLemmas::piece_read, crate::proofs::ReadLemmas::pieces_read))]
pub fn reading_laws()
    ensures piece { PieceIsRead }
    ensures pieces { PiecesAreRead }
{}

/// What is said by the pieces of a text, by any grammar, is what the text says.
pub fn pieces_say_what_the_text_says<G: Grammar>()
    // Of a text that begins with whole lines, what they say comes first.
    ensures in_turn { SaysInTurn G.reading }
    // One piece more adds what the lines say that it made whole.
    ensures by_pieces { SaysByPieces G.reading }
    // The end of the text adds what its last line says.
    ensures at_end { SaysAtEnd G.reading }
    // The entries are those of both parts, or there is the first fault of the two.
    ensures entries { (text more : List ℕ) → EndsLine text → GivesInTurn G.reading text more }
{}
