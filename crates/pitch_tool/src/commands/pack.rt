//! The command `pack`: venue commands come in, and the datagrams of a feed go out.

ghost use Rattle.std.specs.Prelude.{◌≡◌, ◌≤◌, [], IfOk, IfErr, length};
ghost use Rattle.pitch_fields.specs.Limits.{text_limit};
ghost use Rattle.command_feed.specs.Feed.{AppendsPacking};
ghost use Rattle.pitch_tool.specs.TextForms.{made};
ghost use Rattle.pitch_tool.specs.layers.Failures.{IsUnmade};
ghost use Rattle.pitch_words.specs.declared.form.TextWords.TheVariants.{Pack};

use crate::failure::Failure;
use command_feed::append_feed;
use std::alloc::Global;

/// The datagrams that a unit's venue makes of a text of commands, back to back, once it has
/// accepted all of them.
pub fn pack(alloc: Global, unit: u8, text: &[u8]) -> Result<Vec<u8>, Failure>
    requires { length text.now ≤ text_limit }
    ensures made { IfOk result (λ feed. made (Pack unit) text.now ≡ Ok feed.items) }
    ensures packing { IfOk result (λ feed. AppendsPacking unit text.now [] feed.items) }
    ensures unmade { IfErr result (IsUnmade (made (Pack unit) text.now)) }
{
    let mut feed = Vec::new(alloc);
    append_feed(alloc, unit, text, &mut feed)?;
    Ok(feed)
}
