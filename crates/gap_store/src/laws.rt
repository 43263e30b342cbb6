//! The law that a later view of a gap source with as many messages is the same view.

ghost use Rattle.gap_store.specs.layers.Looking.{OneView};

/// The law of looking up: of every two views, a later one with as many messages is the same view.
/// So a store to which nobody pushes is seen as one.
pub fn look_laws()
    ensures { OneView }
{}
