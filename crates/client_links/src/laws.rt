//! The law that it makes no difference in which pieces a link's bytes come.

ghost use Rattle.session_ends.specs.layers.Laws.{ClosesOnce};
ghost use Rattle.client_links.specs.Linking.{Lookups, TellsOnce};

/// The laws of cutting a session's bytes into pieces: two pieces close a link exactly where both at
/// once do, and what is told of both at once is what is told of the one, then of the other.
pub fn cutting_laws()
    // Of every end, all that happened to it, and two pieces.
    ensures closes { ClosesOnce Lookups }
    ensures tells { TellsOnce }
{}
