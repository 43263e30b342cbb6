//! The client's side of a Spin Server session: login, spin requests, and images as they come.

ghost use Rattle.std.specs.Prelude.{◌≡◌, List, [], ◌∷◌, ◌++◌, OnOk, OnErr, IsOk};
ghost use Rattle.std.specs.Prelude.{IfOk, IfSome};
ghost use Rattle.pitch_messages.specs.declared.session.SessionMessage.TheVariants.{SpinRequest};
ghost use Rattle.session_ends.specs.declared.role.Role.TheVariants.{SpinLink as LinkRole};
ghost use Rattle.session_ends.specs.Events.{Event, Asked};
ghost use Rattle.session_ends.specs.layers.Happening.{Happens, OfEvents};
ghost use Rattle.client_links.specs.Linking.{Lookups, link_setup, login_bytes};
ghost use Rattle.client_links.specs.Linking.{link_sends, LinkStands};

use crate::items::ItemList;
use crate::link::{Link, Peer};
use pitch_fields::OutOfMemory;
use pitch_messages::session::SessionMessage;
use session_ends::{Account, Role};
use std::alloc::Global;

/// A Spin Server, as the peer of a link.
pub struct SpinPeer;

impl Peer for SpinPeer {
    ghost role = { LinkRole };

    fn role() -> Role {
        Role::SpinLink
    }
}

/// The client's end of a session with a Spin Server.
pub type SpinLink = Link<SpinPeer>;

impl Link<SpinPeer> {
    /// A link to the Spin Server of a unit, not logged in. Its Login block is appended to `out`,
    /// which is as before after OutOfMemory.
    ///
    /// Standard: "Login Message".
    pub fn make(
        alloc: Global,
        unit: u8,
        account: &Account,
        out: &mut Vec<u8>,
    ) -> Result<SpinLink, OutOfMemory>
        // Nothing happened to it.
        ensures stands { IfOk result (λ link. LinkStands link []) }
        ensures setup { IfOk result (λ link. link.setup ≡ link_setup LinkRole unit) }
        ensures says { OnOk result
            (out.new.items ≡ out.old.items ++ login_bytes LinkRole unit account.now) }
        ensures err { OnErr result (out.new.items ≡ out.old.items) }
    {
        let link = Link::open(alloc, unit, account, out)?;
        Ok(link)
    }

    /// Asks for the image through a sequence: the request is appended to `out`, unless the link is
    /// closed. Both are as before after OutOfMemory.
    ///
    /// Standard: "Spin Request Message".
    pub fn ask(&mut self, sequence: u32, out: &mut Vec<u8>) -> Result<(), OutOfMemory>
        // Of all that happened to it: it was asked too.
        ensures stands { OnOk result
            (Happens LinkStands self.old self.new (Asked (SpinRequest sequence))) }
        // Of all that happened to it: the request was appended, while it was open.
        ensures says { OnOk result (OfEvents LinkStands self.old
            (λ es. out.new.items ≡ out.old.items
            ++ link_sends self.old.setup (Asked (SpinRequest sequence)) es)) }
        ensures setup { self.new.setup ≡ self.old.setup }
        ensures err { OnErr result ((self.new ≡ self.old) × (out.new.items ≡ out.old.items)) }
        ensures shut { IfSome self.old.closed
            (λ c. IsOk result × ((self.new ≡ self.old) × (out.new.items ≡ out.old.items))) }
    {
        self.send(&SessionMessage::SpinRequest { sequence }, out)?;
        Ok(())
    }
}
