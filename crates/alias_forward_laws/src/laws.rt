//! That of a unit whose functions are all forward what `verify` accepts is what `infer` prints.

ghost use Rattle.alias_forward_laws.specs.Forward.{ForwardTextsAreInferred, ForwardUnitsFollow};
ghost use Rattle.alias_forward_laws.specs.Forward.{ForwardUnitsAreAlike, InferredTextsAreAccepted};

/// Of a unit that is well formed and whose functions are all forward one text alone is accepted: that of what is
/// inferred of it. Does nothing.
pub fn forward_texts_law()
    ensures { ForwardTextsAreInferred }
{}

/// Of such a unit the same follows as is inferred, whatever is given, and it is printed alike. Does nothing.
pub fn forward_units_law()
    ensures { ForwardUnitsFollow }
{}

/// Of such a unit the same follows, or the same fault comes first, from whatever is given. Does nothing.
pub fn forward_units_alike_law()
    ensures { ForwardUnitsAreAlike }
{}

/// So what is printed of the inference of such a unit is accepted, where it reads as a certificate. Does nothing.
pub fn inferred_texts_law()
    ensures { InferredTextsAreAccepted }
{}
