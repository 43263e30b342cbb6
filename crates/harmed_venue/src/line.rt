//! A line on which datagrams are harmed.

ghost use Rattle.std.specs.Prelude.{◌≡◌, ◌<◌, ◌≤◌, IfOk, None, length, vec_capacity};
ghost use Rattle.harmed_venue.specs.Lines.{after_send, copies, drawn, fate_of, goes_out, held_back};
ghost use Rattle.harmed_venue.specs.Lines.{kept_by};
ghost use Rattle.harmed_venue.specs.Lines.{let_go, line_at_first, longest_held, sendings};
ghost use Rattle.harmed_venue.specs.Venues.{Makes};

use crate::fate::Fate;
use crate::harm::Harm;
use rand_core::SeedableRng;
use rand_core::utils::NextWord;
use rand_xoshiro::SplitMix64;
use std::alloc::{AllocError, Global};
use std::marker::Model;
use venue_net::VenueNet;

// How many bytes a datagram has at most that is held back.
const LONGEST_HELD: usize = 65_507;

/// A line: of a hundred datagrams so many are harmed, and where one is held back it stands in
/// `kept`, which has room for it from the start.
#[derive(Drop)]
pub struct HarmedLine {
    number: u16,
    lose: u8,
    repeat: u8,
    swap: u8,
    draws: SplitMix64,
    kept: Vec<u8>,
    is_held: bool,
}

impl Model for HarmedLine {
    ghost use Rattle.std.specs.Prelude.{◌<◌, ◌≤◌, None, Some, if◌then◌else◌, vec_capacity};
    ghost use Rattle.harmed_venue.specs.Lines.{LineNow, longest_held};

    ghost Value = { LineNow };

    ghost view = { λ l. record {
      number = l.number;
      lose = l.lose;
      repeat = l.repeat;
      swap = l.swap;
      draws = l.draws;
      held = if l.is_held then Some l.kept.items else None;
    } };

    ghost invariant = { λ l. 0 < l.swap → longest_held ≤ vec_capacity l.kept };
}

// The next draw.
#[tactic(auto, unfolding(crate::specs::Lines::drawn))]
fn draw(draws: &mut SplitMix64) -> u64
    ensures { (result, draws.new) ≡ drawn draws.old }
{
    draws.next_word()
}

// Room for a datagram, where any is held back.
fn room_for(alloc: Global, swap: u8) -> Result<Vec<u8>, AllocError>
    ensures { IfOk result (λ room. 0 < swap → longest_held ≤ vec_capacity room) }
{
    Vec::with_capacity(alloc, if swap > 0 { LONGEST_HELD } else { 0 })
}

impl HarmedLine {
    /// A line on which nothing was sent yet.
    pub(crate) fn make(alloc: Global, harm: &Harm, number: u16) -> Result<HarmedLine, AllocError>
        ensures { IfOk result (λ made. made ≡ line_at_first harm.now number) }
    {
        let swap = harm.swap.of(number);
        Ok(HarmedLine {
            number,
            lose: harm.lose.of(number),
            repeat: harm.repeat.of(number),
            swap,
            draws: SplitMix64::seed_from_u64(harm.number.wrapping_add(u64::from(number))),
            kept: room_for(alloc, swap)?,
            is_held: false,
        })
    }

    // Draws how a datagram of this length goes out.
    fn choose(&mut self, datagram: &[u8]) -> Fate
        ensures fate { result ≡ fate_of self.old datagram.now }
        ensures drawn { self.new ≡ record self.old { draws = (drawn self.old.draws).1 } }
    {
        let word = draw(&mut self.draws);
        if word % 100 < u64::from(self.lose) {
            return Fate::Lost;
        }
        if word / 10_000 % 100 < u64::from(self.swap)
            && datagram.len() <= LONGEST_HELD
            && !self.is_held
        {
            return Fate::Late;
        }
        if word / 100 % 100 < u64::from(self.repeat) {
            return Fate::Twice;
        }
        Fate::Once
    }

    // Sends a datagram as often as it goes out now.
    fn send_copies<N: VenueNet>(&self, fate: Fate, datagram: &[u8], net: &mut N)
        ensures makes { Makes (N.calls net.old) (N.calls net.new)
            (sendings self.now (copies fate datagram.now)) }
        ensures still { N.faults net.new ≡ N.faults net.old }
    {
        match fate {
            Fate::Lost | Fate::Late => {}
            Fate::Twice => {
                net.send(self.number, datagram);
                net.send(self.number, datagram);
            }
            Fate::Once => net.send(self.number, datagram),
        }
    }

    /// Sends a datagram on this line, as it is drawn, and behind it what was held back.
    pub(crate) fn send<N: VenueNet>(&mut self, datagram: &[u8], net: &mut N)
        ensures line { self.new ≡ after_send datagram.now self.old }
        ensures makes { Makes (N.calls net.old) (N.calls net.new)
            (sendings self.old (goes_out self.old datagram.now)) }
        ensures still { N.faults net.new ≡ N.faults net.old }
    {
        let fate = self.choose(datagram);
        self.send_copies(fate, datagram, net);
        self.let_go(net);
        self.hold(fate, datagram);
    }

    // Holds a datagram back that is late. There is room for it.
    fn hold(&mut self, fate: Fate, datagram: &[u8])
        requires none { self.old.held ≡ None }
        requires fits { fate ≡ Fate.Late
            → (length datagram.now ≤ longest_held) × (0 < self.old.swap) }
        ensures { self.new ≡ record self.old { held = kept_by fate datagram.now } }
    {
        match fate {
            Fate::Late => {
                self.kept.clear();
                self.is_held = self.kept.extend_from_slice(datagram).is_ok();
            }
            Fate::Lost => {}
            Fate::Twice => {}
            Fate::Once => {}
        }
    }

    /// Sends what is held back.
    pub(crate) fn let_go<N: VenueNet>(&mut self, net: &mut N)
        ensures line { self.new ≡ let_go self.old }
        ensures makes { Makes (N.calls net.old) (N.calls net.new)
            (sendings self.old (held_back self.old.held)) }
        ensures still { N.faults net.new ≡ N.faults net.old }
    {
        if self.is_held {
            net.send(self.number, &self.kept);
            self.is_held = false;
        }
    }
}
