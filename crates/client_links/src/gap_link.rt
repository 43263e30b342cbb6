//! The client's side of a Gap Request Proxy session: login, gap requests and their replies.

ghost use Rattle.std.specs.Prelude.{◌≡◌, List, [], ◌∷◌, ◌++◌, OnOk, OnErr, IsOk};
ghost use Rattle.std.specs.Prelude.{IfOk, IfSome};
ghost use Rattle.pitch_messages.specs.declared.session.SessionMessage.TheVariants.{GapRequest};
ghost use Rattle.session_ends.specs.declared.role.Role.TheVariants.{GapLink as LinkRole};
ghost use Rattle.session_ends.specs.Events.{Event, Asked};
ghost use Rattle.session_ends.specs.layers.Happening.{Happens, OfEvents};
ghost use Rattle.client_links.specs.Linking.{Lookups, link_setup, login_bytes};
ghost use Rattle.client_links.specs.Linking.{link_sends, LinkStands};

use crate::items::ItemList;
use crate::link::{Link, Peer};
use pitch_fields::OutOfMemory;
use pitch_messages::session::SessionMessage;
use session_ends::{Account, Role};
use std::alloc::Global;

/// The Gap Request Proxy, as the peer of a link.
pub struct ProxyPeer;

impl Peer for ProxyPeer {
    ghost role = { LinkRole };

    fn role() -> Role {
        Role::GapLink
    }
}

/// The client's end of a session with the Gap Request Proxy.
pub type GapLink = Link<ProxyPeer>;

impl Link<ProxyPeer> {
    /// A link, not logged in. Its Login block is appended to `out`, which is as before after
    /// OutOfMemory.
    ///
    /// Standard: "Login Message".
    pub fn make(alloc: Global, account: &Account, out: &mut Vec<u8>) -> Result<GapLink, OutOfMemory>
        // Nothing happened to it.
        ensures stands { IfOk result (λ link. LinkStands link []) }
        ensures setup { IfOk result (λ link. link.setup ≡ link_setup LinkRole 0) }
        ensures says { OnOk result
            (out.new.items ≡ out.old.items ++ login_bytes LinkRole 0 account.now) }
        ensures err { OnErr result (out.new.items ≡ out.old.items) }
    {
        let link = Link::open(alloc, 0, account, out)?;
        Ok(link)
    }

    /// Asks for `count` messages of a unit from a sequence on: the request is appended to `out`,
    /// unless the link is closed. Both are as before after OutOfMemory.
    ///
    /// Standard: "Gap Request Message".
    pub fn ask(
        &mut self,
        unit: u8,
        sequence: u32,
        count: u16,
        out: &mut Vec<u8>,
    ) -> Result<(), OutOfMemory>
        // Of all that happened to it: it was asked too.
        ensures stands { OnOk result
            (Happens LinkStands self.old self.new (Asked (GapRequest unit sequence count))) }
        // Of all that happened to it: the request was appended, while it was open.
        ensures says { OnOk result (OfEvents LinkStands self.old
            (λ es. out.new.items ≡ out.old.items
            ++ link_sends self.old.setup (Asked (GapRequest unit sequence count)) es)) }
        ensures setup { self.new.setup ≡ self.old.setup }
        ensures err { OnErr result ((self.new ≡ self.old) × (out.new.items ≡ out.old.items)) }
        ensures shut { IfSome self.old.closed
            (λ c. IsOk result × ((self.new ≡ self.old) × (out.new.items ≡ out.old.items))) }
    {
        self.send(
            &SessionMessage::GapRequest {
                unit,
                sequence,
                count,
            },
            out,
        )?;
        Ok(())
    }
}
