//! The text of what follows for a unit reads as the certificate of it.

ghost use Rattle.std.specs.Prelude.{◌≡◌};
ghost use Rattle.alias_cert_text.specs.Certificates.{certificate_of_text};
ghost use Rattle.alias_brief.specs.Briefs.{brief_text};
ghost use Rattle.alias_brief.specs.Fitting.{IsFitting};
ghost use Rattle.alias_brief_text_laws.specs.Orderly.{IsOrderly};
ghost use Rattle.alias_brief_text_laws.specs.Reading.{FollowedInOrder, BriefsReadBack};
ghost use Rattle.alias_brief_text_laws.specs.Telling.{told};

use alias_follow::Followed;

/// A law: the text of what follows for a unit reads as the certificate of just that, where what is printed fits, and lines
/// stand in order.
pub fn brief_reads_back(text: &str, followed: &Followed)
    requires printed { text.now ≡ brief_text followed.now }
    requires fitting { IsFitting followed.now }
    requires orderly { IsOrderly followed.now }
    ensures { certificate_of_text text.now ≡ Ok (told followed.now) }
{}

/// A law: what follows for a unit stands in the order in which it is read, where it fits.
pub fn followed_in_order()
    ensures { FollowedInOrder }
{}

/// A law: the text of what follows for a unit reads as the certificate of just that, where it fits.
pub fn briefs_read_back()
    ensures { BriefsReadBack }
{}
