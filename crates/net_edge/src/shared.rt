//! The market of a shared unit: its writer is the venue, and the proxy and the Spin Server look up
//! in a server each.

ghost use Rattle.std.specs.Prelude.{◌≡◌, false, IfOk, OnOk};
ghost use Rattle.pitch_fields.specs.Fields.{AreBytes};
ghost use Rattle.unit_market.specs.Markets.{Journal};
ghost use Rattle.unit_market.specs.Views.{new_journal};
ghost use Rattle.venue_core.specs.Commands.{raw_of};
ghost use Rattle.world_model.specs.Ends.{default_limits};
ghost use Rattle.net_edge.specs.Due.{demo_unit};
ghost use Rattle.net_edge.specs.layers.Shared.{Accepts, Advertises, SharedHas};

use grp_session::{GapBudget, GrpServer};
use pitch_fields::OutOfMemory;
use pitch_messages::Raw;
use pitch_text::Command;
use shared_unit::{FixedRun, LeftRightPlaces, MakeError, Naming, Opened, Server, Writer, make};
use spin_server::SpinServer;
use std::alloc::Global;
use std::marker::Model;
use std::sync::Wait;
use unit_packets::DatagramList;
use venue_end::VenueSide;

/// A writer and its two servers. Contracts see the writer.
///
/// Before a server is looked up in it is told of all that the writer did, and afterwards it has
/// seen no more than that, as nobody else writes: so it answered from just that.
#[derive(Drop)]
pub(crate) struct SharedMarket<J: Naming, R: FixedRun, W: Wait + Drop> {
    writer: Writer<J, R, W>,
    gaps: Server<J, R>,
    images: Server<J, R>,
    // at least as many as the writer's operations
    done: u32,
}

impl<J: Naming, R: FixedRun, W: Wait + Drop> Model for SharedMarket<J, R, W> {
    ghost use Rattle.std.specs.Prelude.{◌≡◌, ◌≤◌, false, length};
    ghost use Rattle.shared_unit.specs.layers.Coding.{writing_code};
    ghost use Rattle.shared_unit.specs.layers.Moments.{Writing};
    ghost use Rattle.world_model.specs.Ends.{default_limits};

    ghost Value = { Writing };

    ghost coded = { writing_code };

    ghost view = { λ m. m.writer };

    ghost invariant = { λ m. (length m.writer.history ≤ m.done)
        × (J.kept ≡ default_limits.kept) × (R.fixed ≡ false) };
}

// What holds of every slice of bytes, as a clause: each is below 256.
fn are_bytes(bytes: &[u8])
    ensures { AreBytes bytes.now }
{}

impl<J: Naming, R: FixedRun, W: Wait + Drop> SharedMarket<J, R, W> {
    /// The writer of a pair that was opened for two servers, which has done nothing, and the two.
    pub(crate) fn open(
        rt: W,
        alloc: Global,
        opened: Opened<R>,
    ) -> Result<SharedMarket<J, R, W>, MakeError>
        requires book { opened.seen.book ≡ J.book }
        requires kept { opened.kept ≡ J.kept }
        requires demo { J.kept ≡ default_limits.kept }
        requires free { R.fixed ≡ false }
        requires servers { opened.servers ≡ 2 }
        ensures { IfOk result
            (λ market. SharedHas market (new_journal demo_unit default_limits.kept)) }
    {
        let mut places = LeftRightPlaces::make();
        let (writer, mut servers) = make::<J, R, W, LeftRightPlaces>(
            rt,
            alloc,
            opened,
            &mut places,
        )?;
        let Some(images) = servers.pop() else {
            unreachable!();
        };
        let Some(gaps) = servers.pop() else {
            unreachable!();
        };
        Ok(SharedMarket {
            writer,
            gaps,
            images,
            done: 0,
        })
    }

    /// A command comes, and its message is accepted. Where it is refused the answer is an error.
    pub(crate) fn accept(&mut self, command: &Command) -> Result<Raw, OutOfMemory>
        ensures raw { IfOk result (λ raw. raw ≡ raw_of command.now) }
        ensures accepts { OnOk result ((j : Journal) → SharedHas self.old j
            → Accepts self.old self.new command.now j) }
    {
        // No writer does so many.
        let Some(done) = self.done.checked_add(1) else {
            return Err(OutOfMemory);
        };
        let Ok(_) = self.writer.accept(command) else {
            return Err(OutOfMemory);
        };
        self.done = done;
        let Some(raw) = self.writer.last_raw() else {
            unreachable!();
        };
        are_bytes(raw.bytes());
        Ok(raw.copy())
    }

    /// The image of all messages is advertised. Answers its sequence.
    pub(crate) fn advertise(&mut self) -> Result<u32, OutOfMemory>
        ensures { IfOk result (λ sequence. (j : Journal) → SharedHas self.old j
            → Advertises self.old self.new sequence j) }
    {
        // No writer does so many.
        let Some(done) = self.done.checked_add(1) else {
            return Err(OutOfMemory);
        };
        let sequence = self.writer.advertise()?;
        self.done = done;
        Ok(sequence)
    }
}

impl<J: Naming, R: FixedRun, W: Wait + Drop> VenueSide for SharedMarket<J, R, W> {
    ghost has = { SharedHas };

    fn feed_proxy(
        &mut self,
        server: &mut GrpServer,
        budget: &mut GapBudget,
        piece: &[u8],
        said: &mut Vec<u8>,
        lines: &mut DatagramList,
    ) -> Result<(), OutOfMemory> {
        self.gaps.hear_told(self.writer.tell());
        server.feed(piece, budget, Some(&mut self.gaps), said, lines)?;
        self.writer.covers(&self.gaps);
        Ok(())
    }

    fn feed_spin(
        &mut self,
        server: &mut SpinServer,
        piece: &[u8],
        said: &mut Vec<u8>,
    ) -> Result<(), OutOfMemory> {
        self.images.hear_told(self.writer.tell());
        server.feed(piece, &mut self.images, said)?;
        self.writer.covers(&self.images);
        Ok(())
    }
}
