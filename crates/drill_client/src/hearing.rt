//! A client hears what crosses to it from its publisher and its service.

ghost use Rattle.std.specs.Prelude.{◌∷◌, ℕ, List, OnOk};
ghost use Rattle.unit_packets.specs.Cutting.{blocks_of};
ghost use Rattle.pitch_model.specs.History.{Entry, Advertised};
ghost use Rattle.heard_items.specs.Datagrams.{heard_blocks};
ghost use Rattle.venue_core.specs.Plan.{plan};
ghost use Rattle.drill_client.specs.layers.Following.{imaged_whole, FollowsWith};
ghost use Rattle.drill_client.specs.layers.Words.{heard_word, heard_reply};

use crate::following::{hear_advertised, hear_datagram, hear_gap_reply, hear_image, hear_no_image};
use crate::run::DrillRun;
use crate::values::{Datagram, Image, Reached};
use crate::words::{Reply, Word};
use client_core::UnitClient;
use pitch_fields::OutOfMemory;
use venue_core::plan_is_in_order;

// The client hears a datagram of the run.
fn hear_piece<R: DrillRun>(
    client: &mut UnitClient,
    datagram: &Datagram<R>,
) -> Result<(), OutOfMemory>
    ensures { OnOk result
        (FollowsWith client.old client.new (plan R.number R.unit R.count)
        (heard_blocks (blocks_of datagram.now))) }
{
    hear_datagram(client, datagram.bytes())?;
    Ok(())
}

// The client hears of a sequence that the run has reached.
fn hear_reached<R: DrillRun>(client: &mut UnitClient, reached: &Reached<R>)
    ensures { FollowsWith client.old client.new (plan R.number R.unit R.count)
        (λ E. Advertised reached.now ∷ E) }
{
    plan_is_in_order();
    hear_advertised(client, reached.sequence());
}

// The client hears an image of the run, whole.
fn hear_spin_image<R: DrillRun>(client: &mut UnitClient, image: Image<R>) -> Result<(), OutOfMemory>
    ensures { OnOk result
        (FollowsWith client.old client.new (plan R.number R.unit R.count)
        (imaged_whole image.sequence image.orders image.raws)) }
{
    let (sequence, orders, raws) = image.into_parts();
    hear_image(client, sequence, orders, raws)?;
    Ok(())
}

/// The client hears a word of its publisher.
pub fn hear_word<R: DrillRun>(client: &mut UnitClient, word: &Word<R>) -> Result<(), OutOfMemory>
    // It goes on following the run's messages.
    ensures { OnOk result
        (FollowsWith client.old client.new (plan R.number R.unit R.count) (heard_word word.now)) }
{
    match word {
        Word::Sent(datagram) => {
            hear_piece(client, datagram)?;
            Ok(())
        }
        Word::Advertised(reached) => {
            hear_reached(client, reached);
            Ok(())
        }
        Word::Last => Ok(()),
    }
}

/// The client hears a word of its service.
pub fn hear_reply<R: DrillRun>(client: &mut UnitClient, reply: Reply<R>) -> Result<(), OutOfMemory>
    // It goes on following the run's messages.
    ensures { OnOk result
        (FollowsWith client.old client.new (plan R.number R.unit R.count) (heard_reply reply)) }
{
    match reply {
        Reply::Gap { accepted } => {
            hear_gap_reply(client, accepted);
            Ok(())
        }
        Reply::Again(datagram) => {
            hear_piece(client, &datagram)?;
            Ok(())
        }
        Reply::Spin(image) => {
            hear_spin_image(client, image)?;
            Ok(())
        }
        Reply::NoSpin { sequence } => {
            hear_no_image(client, sequence);
            Ok(())
        }
    }
}
