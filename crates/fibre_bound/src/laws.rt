//! What a walk over the states of the feed in one phase says of every instance.

ghost use Rattle.fibre_bound.specs.OnePhase.{FibresHold};

/// Where a surface bounds the energies of cases, every state of the feed in one phase has at least the energy `low` of a walk, and the
/// one at its packing fraction has at most `up`.
pub fn fibres_hold()
    ensures { FibresHold }
{}
