//! What the check of a certificate answers: a solution of each function, in order, and which refusals it passes on.

ghost use Rattle.alias_certified_laws.specs.checked.Handed.{ChecksInOrder};
ghost use Rattle.alias_certified_laws.specs.checked.Steps.{ChecksBlameSteps};

/// Where a certificate is accepted for a unit that is well formed, there is a solution of each of its functions, those
/// below each function before it, in stored order, and the root last. Each solves its function's flow as the check of
/// the function begins, and enters its blocks as the certificate says; and what that check found of the functions
/// before it stands in the unit that is handed out, but for the effects of context places. Does nothing.
pub fn order_law()
    ensures { ChecksInOrder }
{}

/// Where the check of a certificate finds the fault of a step, the step of a block was refused: the range pass has no
/// part in it, since no `Apply` is left to it. Does nothing.
pub fn step_law()
    ensures { ChecksBlameSteps }
{}
