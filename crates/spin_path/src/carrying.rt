//! The client's side of a spin connection: its link is fed what the server said next.

ghost use Rattle.std.specs.Prelude.{◌≡◌, ℕ, List, [], ◌++◌, OnOk};
ghost use Rattle.pitch_model.specs.History.{Raw};
ghost use Rattle.session_ends.specs.declared.role.Role.TheVariants.{SpinLink as LinkRole};
ghost use Rattle.session_ends.specs.Closing.{Setup};
ghost use Rattle.session_ends.specs.Events.{fed_of};
ghost use Rattle.client_links.specs.Linking.{link_setup, LinkStands};
ghost use Rattle.spin_path.specs.Paths.{Move, path_of, all_said, AreMoves};
ghost use Rattle.spin_path.specs.PathLaws.{IsFeed, CarriesOn};

use client_links::{ItemList, SpinLink};
use pitch_fields::OutOfMemory;

/// Feeds a client's link the next bytes of its Spin Server, and appends the items that it tells to
/// an empty list. Once the client has heard them, no image was bad, and each that was finished is
/// that of the unit's messages.
pub fn carry(link: &mut SpinLink, piece: &[u8], items: &mut ItemList) -> Result<(), OutOfMemory>
    requires empty { items.old.items ≡ [] }
    // Of every feed and all moves so far, where the link stands for those at its end, the client
    // has heard all that was told, and the piece comes next of what the server said: what the link
    // did are moves too, and the client's images are whole.
    ensures carries { OnOk result ((V : List Raw) (setup : Setup) (moves : List Move)
        (later : List ℕ) → IsFeed V → AreMoves V setup moves → link.old.setup ≡ link_setup LinkRole
        (path_of setup moves).setup.unit → LinkStands link.old (path_of setup moves).linked
        → (path_of setup moves).told ≡ [] → all_said (path_of setup moves).setup
        (path_of setup moves).served ≡ (fed_of (path_of setup moves).linked ++ piece.now) ++ later
        → CarriesOn V setup moves piece.now link.new items.new.items) }
    ensures setup { link.new.setup ≡ link.old.setup }
{
    link.feed(piece, items)?;
    Ok(())
}
