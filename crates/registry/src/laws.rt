//! What the look-ups of a registry tell.
ghost use Rattle.registry.specs.Faces as spec;

/// What everybody may look up is read off the public part of the registry, and so is all that a zone
/// is made of.
pub fn look_ups_are_public()
    ensures { spec.LookUpsArePublic }
{}
