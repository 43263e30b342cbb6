//! The input, whose whole lines are heard as they come.

ghost use Rattle.std.specs.Prelude.{◌≡◌, ◌≤◌, ◌++◌, [], IfOk, List, ℕ, None, length};
ghost use Rattle.unit_commands.specs.Pieces.{piece_limit, read_through};
ghost use Rattle.venue_end.specs.declared.setup.VenueSetup.{VenueSetup};
ghost use Rattle.venue_units.specs.Coming.{UnitCame};
ghost use Rattle.venue_units.specs.Units.{UnitsStand};
ghost use Rattle.live_venue.specs.Input.{piece_heard, rest_heard};
ghost use Rattle.live_venue.specs.Standing.{Hears};

use crate::fault::InputFault;
use crate::hearing::{hear_lines, told_line};
use pitch_fields::OutOfMemory;
use std::alloc::Global;
use std::marker::Model;
use unit_commands::{PieceError, TextPieces};
use venue_units::VenueUnits;

/// What was read of the input: of it the unfinished line alone is kept.
#[derive(Drop)]
pub(crate) struct Reader {
    pieces: TextPieces,
}

impl Model for Reader {
    ghost use Rattle.std.specs.Prelude.{◌≡◌, []};
    ghost use Rattle.unit_commands.specs.Pieces.{UnreadText};

    ghost Value = { UnreadText };

    ghost view = { λ r. r.pieces };

    ghost invariant = { λ r. r.pieces.whole ≡ [] };
}

impl Reader {
    /// Nothing was read yet.
    pub(crate) fn make(alloc: Global) -> Reader
        ensures { result ≡ read_through [] }
    {
        Reader {
            pieces: TextPieces::make(alloc),
        }
    }

    /// A piece of at most 65,536 bytes was read: the lines that it ends are heard, up to the first
    /// fault, which is the answer where there is one.
    pub(crate) fn hear(
        &mut self,
        units: &mut VenueUnits,
        piece: &[u8],
    ) -> Result<Option<InputFault>, OutOfMemory>
        requires { length piece.now ≤ piece_limit }
        ensures heard { IfOk result (λ fault. (s : List VenueSetup) (read : List ℕ)
            (came : List UnitCame) → self.old ≡ read_through read → UnitsStand s units.old came
            → Hears s units.new fault (piece_heard s read piece.now came)) }
        ensures read { IfOk result (λ fault. (read : List ℕ) → self.old ≡ read_through read
            → fault ≡ None → self.new ≡ read_through (read ++ piece.now)) }
    {
        match self.pieces.push(piece) {
            Ok(()) => {}
            Err(PieceError::OutOfMemory) => return Err(OutOfMemory),
            Err(PieceError::TooLong) => {
                let line = told_line(self.pieces.lines(), 1);
                return Ok(Some(InputFault::TooLong(line)));
            }
        }
        let heard = hear_lines(units, self.pieces.lines(), self.pieces.whole());
        self.pieces.pass();
        heard
    }

    /// The input is at its end: the last line is heard. Answers its fault, where it has one.
    pub(crate) fn hear_rest(
        &self,
        units: &mut VenueUnits,
    ) -> Result<Option<InputFault>, OutOfMemory>
        ensures { IfOk result (λ fault. (s : List VenueSetup) (read : List ℕ)
            (came : List UnitCame) → self.now ≡ read_through read → UnitsStand s units.old came
            → Hears s units.new fault (rest_heard s read came)) }
    {
        hear_lines(units, self.pieces.lines(), self.pieces.rest())
    }
}
