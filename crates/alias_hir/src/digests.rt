//! Digests of reports: numbers by which interned reports are found.
ghost use Rattle.std.specs.Prelude.{◌≡◌, option_map};
ghost use Rattle.alias_hir.specs.Digests.{mixed, with_text, with_help, with_label, with_labels, words_digest};

use crate::report::{Label, Report};
use alias_base::{IdentifierId, Text};

fn mixed(digest: u32, number: u32) -> u32
    ensures { result ≡ mixed digest number }
{
    ((digest as u64 * 16777619 + number as u64) % 4294967291) as u32
}

fn with_text(digest: u32, text: &str) -> u32
    ensures { result ≡ with_text digest text.now }
{
    let mut mixed_in = digest;
    for byte in text.as_bytes() {
        mixed_in = mixed(mixed_in, *byte as u32);
    }
    mixed_in
}

fn with_help(digest: u32, help: Option<&Text>) -> u32
    ensures { result ≡ with_help digest (option_map (λ t. t.now) help.entry) }
{
    match help {
        Some(text) => with_text(digest, text.as_str()),
        None => digest,
    }
}

fn with_label(digest: u32, label: &Label) -> u32
    ensures { result ≡ with_label digest label.now }
{
    mixed(mixed(digest, label.span.start), label.span.end)
}

fn with_labels(digest: u32, labels: &[Label]) -> u32
    ensures { result ≡ with_labels digest labels.now }
{
    let mut mixed_in = digest;
    for label in labels {
        mixed_in = with_label(mixed_in, label);
    }
    mixed_in
}

/// The digest of what a report says of an identifier.
pub(crate) fn words_digest(identifier: IdentifierId, report: &Report) -> u32
    ensures { result ≡ words_digest identifier report.now }
{
    let message = with_text(identifier.0, report.message.as_str());
    with_help(message, report.help.as_ref())
}

/// The digest of a report with what it points at, from that of what it says.
pub(crate) fn report_digest(words: u32, report: &Report) -> u32
    ensures { result ≡ with_labels words report.now.labels }
{
    with_labels(words, report.labels.as_slice())
}
