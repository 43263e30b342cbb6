//! Laws of pieces, of look-ups, and of what a shelf shows of all that was pushed.

ghost use Rattle.std.specs.Prelude.{◌≡◌, ℕ, ◌==◌, List, [], None};
ghost use Rattle.std.specs.List.{list_any};
ghost use Rattle.pitch_model.specs.Advertising.{Operation, advertised_by, last_ten, newest_of};
ghost use Rattle.session_ends.specs.layers.Laws.{ClosesOnce, RisesNowhere};
ghost use Rattle.spin_server.specs.Served.{Served, is_served};
ghost use Rattle.spin_server.specs.layers.Looking.{ServedLater};
ghost use Rattle.spin_server.specs.layers.Feeding.{SpinAnswersOnce};
ghost use Rattle.spin_server.specs.Shelves.{Shelf};
ghost use Rattle.spin_server.specs.Stands.{ShelfStands};
ghost use Rattle.spin_server.specs.layers.ShelfViews.{ShelfShows, OneServed, ShelfHasOneView};
ghost use Rattle.spin_server.specs.layers.ShelfViews.{seen_of};

/// The laws of cutting a session's bytes into pieces: two pieces close the end exactly where both
/// at once do, and what is answered to both at once is what is answered to the one, then to the
/// other.
pub fn spin_cutting_laws()
    ensures closes { ClosesOnce (List Served) }
    ensures answers { SpinAnswersOnce }
{}

/// The laws of looking up: a later view of a shelf that stayed as it was is the same view, and so
/// are all views at which a piece is answered. Where the last view of a feeding is that of the
/// call, all are.
pub fn image_look_laws()
    ensures one { OneServed }
    ensures piece { ShelfHasOneView }
    ensures rises { RisesNowhere Served ServedLater }
{}

/// What is seen of a shelf: all messages that were pushed, and of the sequences that were
/// advertised the last ten, which are those that are served; the newest of them is the newest of
/// all, and there is none only where nothing was advertised.
pub fn shelves_show_what_was_pushed()
    ensures shows { (shelf : Shelf) (operations : List Operation)
        → ShelfStands shelf operations → ShelfShows shelf (seen_of operations) }
    ensures served { (operations : List Operation) (sequence : ℕ) → is_served (seen_of operations)
        sequence ≡ list_any (λ n. n == sequence) (last_ten (advertised_by operations)) }
    ensures none { (advertised : List ℕ) → newest_of advertised ≡ None → advertised ≡ [] }
    ensures newest { (operations : List Operation)
        → newest_of (seen_of operations).advertised ≡ newest_of (advertised_by operations) }
{}
