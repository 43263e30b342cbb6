//! Laws of the proxy's end: pieces make no difference, and a store that stays has one view.

ghost use Rattle.gap_store.specs.Look.{View};
ghost use Rattle.gap_store.specs.layers.Looking.{IsLater};
ghost use Rattle.session_ends.specs.layers.Laws.{ClosesOnce, RisesNowhere};
ghost use Rattle.grp_session.specs.Serving.{Source};
ghost use Rattle.grp_session.specs.layers.Feeding.{GrpAnswersOnce, StoreHasOneView};

/// The laws of cutting a session's bytes into pieces: two pieces close the end exactly where both
/// at once do, and what is answered to both at once is what is answered to the one, then to the
/// other.
pub fn cutting_laws()
    // Of every end, all that happened to it, and two pieces.
    ensures closes { ClosesOnce Source }
    ensures answers { GrpAnswersOnce }
{}

/// The laws of looking up: of views that rise, where the last is the first, all are; so while a
/// store stays as it was, as [`GrpServer::feed`](crate::GrpServer::feed) leaves it where nobody
/// else pushes, a piece is answered at one view.
pub fn look_laws()
    ensures nowhere { RisesNowhere View IsLater }
    // Of views that rise over a store that stays.
    ensures store { StoreHasOneView }
{}
