//! That the range pass gives what is alike over functions that carry what is alike.

ghost use Rattle.alias_range_alike_laws.specs.Ranging.{RangePassIsAlike, RangePassIsNearlyAlike};
ghost use Rattle.alias_range_alike_laws.specs.Spans.{RangesReadNoSpan};

/// Over functions that carry effects that are alike, in environments whose functions are seen alike, the range pass gives summaries that are alike, functions that carry alike,
/// and environments that are the same but for such functions and for reports. Does nothing.
pub fn range_law()
    ensures { RangePassIsAlike }
{}

/// So it does where the effects of context places differ too; of each function that an instruction with effects creates they are the same after the pass. Does nothing.
pub fn nearby_law()
    ensures { RangePassIsNearlyAlike }
{}

/// Where identifiers have other spans, the range pass gives the same summary and the same function, and the same environment but for these spans. Does nothing.
pub fn spans_law()
    ensures { RangesReadNoSpan }
{}
