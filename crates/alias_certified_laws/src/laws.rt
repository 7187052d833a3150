//! That the certificate of an effects pass is accepted, and printed as it is said.

ghost use Rattle.alias_certified_laws.specs.Names.{NamesAreThere, PassesAreAccepted};
ghost use Rattle.alias_certified_laws.specs.Printed.{PrintsWhatIsSaid};

/// The entry states that the effects pass of a function ends with name only what is there, and its temporaries are counted on from the identifiers.
/// Does nothing.
pub fn names_law()
    ensures { NamesAreThere }
{}

/// The certificate that says what the effects pass of a function ends with is accepted, also over environments whose functions are seen alike and whose
/// reports are other ones, or no number is left for a report. Does nothing.
pub fn accepted_law()
    ensures { PassesAreAccepted }
{}

/// The lines that are printed of a function that carries the effects of its solution are those that are said of the solution, where nothing was
/// inferred of its instructions and terminals before. Does nothing.
pub fn printed_law()
    ensures { PrintsWhatIsSaid }
{}
