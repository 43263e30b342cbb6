//! Laws of the definitions. These functions do nothing: what they ensure is proved of the
//! definitions alone.

ghost use Rattle.std.specs.Prelude.{◌≡◌, ◌<◌, ◌≤◌, ℕ, ◌+◌, List, ◌++◌, length, reverse, take, Some};
ghost use Rattle.std.specs.List.{AllByRecursion};
ghost use Rattle.heard_items.specs.Datagrams.{IsPiece};
ghost use Rattle.pitch_io.specs.declared.line.Line.{Line};
ghost use Rattle.pitch_text.specs.WellFormed.{IsVerb};
ghost use Rattle.pitch_text.specs.declared.verb.Verb.{Verb};
ghost use Rattle.pitch_model.specs.Book.{book_after};
ghost use Rattle.pitch_model.specs.Status.{status_of, top_of};
ghost use Rattle.pitch_model.specs.declared.status.Status.TheVariants.{Current};
ghost use Rattle.spin_path.specs.PathLaws.{HasWholeImages};
ghost use Rattle.world_model.specs.Sound.{Sound};
ghost use Rattle.world_model.specs.State.{datagrams_on};
ghost use Rattle.world_laws.specs.Recovery.{recovery};
ghost use Rattle.world_laws.specs.Rounds.{AreAccepted, AreLeft, BringsAsked, KeepsMissing};
ghost use Rattle.world_laws.specs.Rounds.{rounds_needed, state_after, with_heartbeat};
ghost use Rattle.world_laws.specs.Spending.{SpendsWithin, ticks_in};
ghost use Rattle.world_model.specs.Verbs.{state_of, client_book};
ghost use Rattle.world_model.specs.declared.limits.Limits.{Limits};

/// Over any verbs a second is a tick, and the proxy accepts no more requests in a second, in a
/// minute of 60 and in all than its limits allow.
#[tactic(auto, using(crate::proofs::Spending::spends_within))]
pub fn requests_stay_within_their_limits()
    ensures { (unit : ℕ) (limits : Limits) (done : List Verb)
        → SpendsWithin limits (ticks_in done) (state_of unit limits done).venue.spent }
{}

/// Whatever verbs are done, in any order: the client heard nothing but datagrams that were handed
/// out, the proxy's replies and bytes that were put to its session with the Spin Server. So what
/// venue and proxy sent are pieces of the venue's feed, all that the client heard is true of the
/// venue, and each image that it heard to its end is the venue's.
pub fn every_state_is_sound()
    ensures sound { (unit : ℕ) (limits : Limits) (done : List Verb)
        → unit < 256 → AllByRecursion IsVerb done → Sound unit limits (state_of unit limits done) }
    ensures pieces { (unit : ℕ) (limits : Limits) (done : List Verb) (line : Line)
        → unit < 256 → AllByRecursion IsVerb done
        → AllByRecursion (IsPiece (state_of unit limits done).venue.messages unit)
        (datagrams_on (state_of unit limits done) line) }
    ensures whole { (unit : ℕ) (limits : Limits) (done : List Verb)
        → unit < 256 → AllByRecursion IsVerb done → HasWholeImages
        (state_of unit limits done).venue.messages (state_of unit limits done).client.heard }
{}

/// A recovery ends, wherever it begins. Whatever was lost, repeated, cut or refused before: once
/// the connections were cut and one round with a Spin Server was carried, the client is current at
/// all that the venue accepted.
pub fn recovery_ends()
    // After any verbs that a schedule can have, under any limits.
    ensures current { (unit : ℕ) (limits : Limits) (done : List Verb)
        → unit < 256 → AllByRecursion IsVerb done
        → status_of limits.hold (state_of unit limits (reverse recovery ++ done)).client.heard
        ≡ Current (length (state_of unit limits done).venue.messages) }
    // Its book is the one that all these messages leave.
    ensures book { (unit : ℕ) (limits : Limits) (done : List Verb)
        → unit < 256 → AllByRecursion IsVerb done
        → client_book limits (state_of unit limits (reverse recovery ++ done))
        ≡ book_after (state_of unit limits done).venue.messages }
{}

/// With the Gap Request Proxy alone a client comes back too, where its requests are accepted: each
/// round brings what it asked for, and there are as many rounds as the runs of missing messages
/// need, at most 100 messages of one run in each. Wherever verbs led before, its connections are
/// cut, and a new one with the proxy logs in.
pub fn rounds_with_the_proxy_end()
    // Each round takes the reach on by as many messages as were asked for, one at least.
    ensures each { (unit : ℕ) (limits : Limits) (done : List Verb) (n : ℕ)
        → unit < 256 → AllByRecursion IsVerb done → 1 ≤ limits.hold
        → n < rounds_needed limits.hold (state_after unit limits done 0).client.heard
        → AreAccepted unit limits done (n + 1) → BringsAsked limits.hold
        (state_after unit limits done n).client.heard
        (state_after unit limits done (n + 1)).client.heard }
    // After each of them one less is needed.
    ensures left { (unit : ℕ) (limits : Limits) (done : List Verb) (n : ℕ)
        → unit < 256 → AllByRecursion IsVerb done → 1 ≤ limits.hold
        → n ≤ rounds_needed limits.hold (state_after unit limits done 0).client.heard
        → AreAccepted unit limits done n
        → rounds_needed limits.hold (state_after unit limits done n).client.heard + n
        ≡ rounds_needed limits.hold (state_after unit limits done 0).client.heard }
    // After all of them the client is current at the last message that it was told of.
    ensures current { (unit : ℕ) (limits : Limits) (done : List Verb) (n top : ℕ)
        → unit < 256 → AllByRecursion IsVerb done → 1 ≤ limits.hold
        → n ≡ rounds_needed limits.hold (state_after unit limits done 0).client.heard
        → AreAccepted unit limits done n
        → top_of (state_after unit limits done 0).client.heard ≡ Some top
        → status_of limits.hold (state_after unit limits done n).client.heard ≡ Current top }
    // Its book is the one that the messages up to there leave.
    ensures book { (unit : ℕ) (limits : Limits) (done : List Verb) (n top : ℕ)
        → unit < 256 → AllByRecursion IsVerb done → 1 ≤ limits.hold
        → n ≡ rounds_needed limits.hold (state_after unit limits done 0).client.heard
        → AreAccepted unit limits done n
        → top_of (state_after unit limits done 0).client.heard ≡ Some top
        → client_book limits (state_after unit limits done n)
        ≡ book_after (take top (state_of unit limits done).venue.messages) }
    // Where a heartbeat came behind all that was sent, that is all that the venue accepted.
    ensures told { (unit : ℕ) (limits : Limits) (done : List Verb)
        → unit < 256 → AllByRecursion IsVerb done
        → top_of (state_after unit limits (with_heartbeat unit limits done) 0).client.heard
        ≡ Some (length (state_of unit limits done).venue.messages) }
    // A proxy that keeps what the client lacks, and whose limits leave that many, accepts them.
    ensures allowed { (unit : ℕ) (limits : Limits) (done : List Verb) (n : ℕ)
        → unit < 256 → AllByRecursion IsVerb done → 1 ≤ limits.hold
        → n ≤ rounds_needed limits.hold (state_after unit limits done 0).client.heard
        → KeepsMissing limits (state_after unit limits done 0)
        → AreLeft limits (state_after unit limits done 0).venue.spent n
        → AreAccepted unit limits done n }
{}
