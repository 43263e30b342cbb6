//! The end of a unit's drill.

ghost use Rattle.std.specs.Prelude.{◌≡◌, ◌*◌, ℕ, OnOk};
ghost use Rattle.venue_core.specs.Plan.{plan};
ghost use Rattle.drill_client.specs.layers.Ending.{AsksForAll, IsAtEnd};
ghost use Rattle.drill_client.specs.layers.Following.{FollowsOn};
ghost use Rattle.unit_threads.specs.layers.Publishing.{HasAccepted, HasAdvertised};

use crate::course::Course;
use crate::service::image_of_all;
use client_core::UnitClient;
use drill_client::{DrillRun, Image, asks_when_told_of_all, hear_all};
use pitch_fields::OutOfMemory;
use shared_unit::{FixedRun, Naming, Server, Writer};
use std::alloc::Global;
use std::sync::Wait;
use venue_core::plan_is_in_order;

// The client hears the image of all messages, for which it asked.
fn take_image<R: DrillRun + FixedRun>(
    client: &mut UnitClient,
    course: &Course<R>,
    image: Image<R>,
) -> Result<(), OutOfMemory>
    requires { image.sequence ≡ course.now.count }
    ensures { OnOk result ((H : ℕ) → AsksForAll client.old H (plan R.number R.unit R.count)
        → IsAtEnd client.new H (plan R.number R.unit R.count)) }
{
    plan_is_in_order();
    let (_sequence, orders, raws) = image.into_parts();
    hear_all(client, course.count, orders, raws)?;
    Ok(())
}

/// The client hears of all messages, and takes the image of all where it lacks some. The server
/// hears before of all that the writer did.
pub(crate) fn close<J: Naming, R: DrillRun + FixedRun, H: Wait + Drop>(
    alloc: Global,
    course: &Course<R>,
    writer: &mut Writer<J, R, H>,
    server: &mut Server<J, R>,
    client: &mut UnitClient,
) -> Result<(), OutOfMemory>
    requires accepted { HasAccepted writer.old.history
        course.now.number course.now.unit course.now.count (2 * course.now.count) }
    requires advertised { HasAdvertised writer.old.history course.now.count }
    ensures { OnOk result ((H : ℕ) → FollowsOn client.old H (plan R.number R.unit R.count)
        → IsAtEnd client.new H (plan R.number R.unit R.count)) }
{
    plan_is_in_order();
    server.hear_told(writer.tell());
    if !asks_when_told_of_all(client, course.count) {
        return Ok(());
    }
    let image = image_of_all(alloc, course, server)?;
    take_image(client, course, image)
}
