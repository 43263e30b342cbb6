//! The texts of streams in which the blocks of every unit speak honestly. The function does
//! nothing: what it ensures is proved of the definitions alone.

ghost use Rattle.std.specs.Prelude.{◌≡◌, ℕ, List, reverse};
ghost use Rattle.unit_packets.specs.Blocks.{Block};
ghost use Rattle.pitch_model.specs.History.{Raw};
ghost use Rattle.heard_items.specs.Units.{AllHonest};
ghost use Rattle.feed_lines.specs.Follow.{follow_text};
ghost use Rattle.best_quotes.specs.QuotesText.{quotes_text};
ghost use Rattle.relay_unit.specs.RelayText.{AreRelayVenues, relay_text};
ghost use Rattle.stream_print.specs.Followed.{IsFollowed};
ghost use Rattle.stream_print.specs.Texts.{AreTexts};

use crate::stream_form::StreamForm;

/// For every family of venues of which the blocks speak, the text is that which their messages
/// define.
pub fn honest_blocks_have_the_text_of_their_venues()
    ensures follow { (H : ℕ) (blocks : List Block) (text : List ℕ)
        (Image : List Raw → ℕ → List Raw) (Vs : ℕ → List Raw) → IsFollowed H blocks text
        → AllHonest Image Vs (reverse blocks) → text ≡ follow_text H Vs blocks }
    ensures relay { (H : ℕ) (blocks : List Block) (text : List ℕ) (Vs : ℕ → List Raw)
        → AreTexts (StreamForm.Relay H) blocks text → AreRelayVenues H Vs (reverse blocks)
        → text ≡ relay_text H Vs blocks }
    ensures quotes { (H : ℕ) (blocks : List Block) (text : List ℕ)
        (Image : List Raw → ℕ → List Raw) (Vs : ℕ → List Raw)
        → AreTexts (StreamForm.Quotes H) blocks text → AllHonest Image Vs (reverse blocks)
        → text ≡ quotes_text H Vs blocks }
{}
