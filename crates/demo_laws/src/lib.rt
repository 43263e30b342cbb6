//! A law of demos: over a net in memory, what came was sent, and what came to an end of a
//! connection begins what was put at the other.
//!
//! [`carried_in_memory`] does nothing. What it ensures is proved of what the net in memory lists of
//! its calls.
#![tactic(auto)]

ghost use Rattle.std.specs.Prelude.{◌≡◌, ℕ, List, Some};
ghost use Rattle.pitch_io.specs.Nets.{Call};
ghost use Rattle.net_edge.specs.Acting.{scene_of};
ghost use Rattle.net_edge.specs.Demo.{IsDemo, IsCarried};
ghost use Rattle.net_edge.specs.Due.{Setting};

use memory_devices::MemoryNet;

/// That a net in memory carries what a demo gives it, and so that the orders and the shares that
/// [`demo`](net_edge::demo) prints over it are those that the venue's messages leave.
///
/// It says so of each demo whose calls are the last that the net lists.
pub fn carried_in_memory(net: &MemoryNet)
    ensures { (s : Setting) (before after : List Call) (text text' : List ℕ)
        (demo : IsDemo s (Some before) (Some after) text text') → net.now.calls ≡ Some after
        → IsCarried (scene_of s demo.run) }
{
    net.carries();
}
