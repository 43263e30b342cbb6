//! The lines of a harmed net.

ghost use Rattle.std.specs.Prelude.{◌≡◌, IfOk, map, slice_get, if◌then◌else◌};
ghost use Rattle.harmed_venue.specs.Harmed.{after_sent, all_held, all_held_if, lets_go, sent_on};
ghost use Rattle.harmed_venue.specs.Lines.{let_go, lines_at_first};
ghost use Rattle.harmed_venue.specs.Venues.{Makes};

use crate::harm::Harm;
use crate::line::HarmedLine;
use live_net::WaitEnd;
use std::alloc::{AllocError, Global};
use std::marker::Model;
use venue_net::VenueNet;

/// The lines, by their numbers.
#[derive(Drop)]
pub struct HarmedLines {
    lines: Vec<HarmedLine>,
}

impl Model for HarmedLines {
    ghost use Rattle.std.specs.Prelude.{List};
    ghost use Rattle.harmed_venue.specs.Lines.{LineNow};

    ghost Value = { List LineNow };

    ghost view = { λ l. l.lines.items };
}

impl HarmedLines {
    /// The lines on which nothing was sent yet.
    #[tactic(auto, using(crate::proofs::Sending::one_more))]
    pub(crate) fn make(alloc: Global, harm: &Harm) -> Result<HarmedLines, AllocError>
        ensures { IfOk result (λ made. made ≡ lines_at_first harm.now harm.now.lines) }
    {
        let mut lines = Vec::with_capacity(alloc, usize::from(harm.lines))?;
        for line in 0..harm.lines {
            let made = HarmedLine::make(alloc, harm, line)?;
            lines.push(made)?;
        }
        Ok(HarmedLines { lines })
    }

    /// Sends a datagram as it is drawn; on a line that isn't known, as it is.
    pub(crate) fn send<N: VenueNet>(&mut self, line: u16, datagram: &[u8], net: &mut N)
        ensures lines { self.new
            ≡ after_sent line datagram.now (slice_get self.old line) self.old }
        ensures makes { Makes (N.calls net.old) (N.calls net.new)
            (sent_on line datagram.now (slice_get self.old line)) }
        ensures still { N.faults net.new ≡ N.faults net.old }
    {
        match self.lines.get_mut(usize::from(line)) {
            Some(found) => found.send(datagram, net),
            None => net.send(line, datagram),
        }
    }

    // Sends all that is held back, on one line after another.
    fn let_go<N: VenueNet>(&mut self, net: &mut N)
        ensures lines { self.new ≡ map let_go self.old }
        ensures makes { Makes (N.calls net.old) (N.calls net.new) (all_held self.old) }
        ensures still { N.faults net.new ≡ N.faults net.old }
    {
        'lines: for line in self.lines.iter_mut() {
            line.let_go(net);
        }
    }

    /// A wait has ended: where a second has passed, and at the end, all that is held back goes out.
    pub(crate) fn wait_over<N: VenueNet>(&mut self, answer: WaitEnd, net: &mut N)
        ensures lines { self.new ≡ (if lets_go answer then map let_go self.old else self.old) }
        ensures makes { Makes (N.calls net.old) (N.calls net.new)
            (all_held_if (lets_go answer) self.old) }
        ensures still { N.faults net.new ≡ N.faults net.old }
    {
        match answer {
            WaitEnd::Second => self.let_go(net),
            WaitEnd::Over => self.let_go(net),
            WaitEnd::Ready => {}
            WaitEnd::Failed => {}
        }
    }
}
