//! The server's side of a spin connection: it answers a piece, and sends a block.

ghost use Rattle.std.specs.Prelude.{◌≡◌, IfOk, OnOk, List};
ghost use Rattle.pitch_model.specs.Advertising.{Operation, accepted_by};
ghost use Rattle.session_ends.specs.Closing.{Setup};
ghost use Rattle.spin_server.specs.Serving.{SpinStands};
ghost use Rattle.spin_server.specs.Stands.{ShelfStands};
ghost use Rattle.spin_path.specs.Paths.{Move, path_of, AreMoves};
ghost use Rattle.spin_path.specs.PathLaws.{ServesOn};

use pitch_fields::OutOfMemory;
use spin_server::{ImageShelf, SpinServer};

/// Feeds a Spin Server the next bytes of its client, and lets it send the next block of a running
/// image, over the shelf of the unit's messages. Answers whether a spin still runs.
pub fn serve(
    server: &mut SpinServer,
    shelf: &mut ImageShelf,
    piece: &[u8],
    down: &mut Vec<u8>,
) -> Result<bool, OutOfMemory>
    // Of everything that was pushed and advertised, and all moves so far, where the server stands
    // for those at its end: what it did are moves too, what it says by them was appended, and true
    // is answered exactly where a spin runs after them.
    ensures serves { IfOk result (λ more. (operations : List Operation)
        (setup : Setup) (moves : List Move) → ShelfStands shelf.old operations → AreMoves
        (accepted_by operations) setup moves → server.old.end.setup ≡ (path_of setup moves).setup
        → SpinStands server.old (path_of setup moves).served → ServesOn (accepted_by operations)
        setup moves piece.now server.new down.old.items down.new.items more) }
    ensures setup { OnOk result (server.new.end.setup ≡ server.old.end.setup) }
    ensures shelf { shelf.new ≡ shelf.old }
{
    server.feed(piece, shelf, down)?;
    let more = server.pump(down)?;
    Ok(more)
}
