//! What of the text of an effect tells it from another.
ghost use Rattle.std.specs.Prelude.{◌≡◌, ◌≤◌, length, take};
ghost use Rattle.alias_cert.specs.effects.Kept.{word_end, second_end, same_text, has_more, kept_length, kept};

/// Where the first space stands, or else the end.
fn word_end(text: &[u8]) -> usize
    ensures end { result ≡ word_end text.now }
    ensures within { result ≤ length text.now }
{
    for (index, letter) in text.iter().enumerate() {
        if *letter == b' ' {
            return index;
        }
    }
    text.len()
}

/// Where the second word ends.
fn second_end(text: &[u8]) -> usize
    ensures end { result ≡ second_end text.now }
    ensures within { result ≤ length text.now }
{
    let first = word_end(text);
    if first < text.len() {
        first + 1 + word_end(&text[first + 1..])
    } else {
        first
    }
}

fn has_more(name: &[u8]) -> bool
    ensures { result ≡ has_more name.now }
{
    name == b"Mutate".as_slice()
        || name == b"MutateFrozen".as_slice()
        || name == b"MutateGlobal".as_slice()
        || name == b"Impure".as_slice()
}

/// What is kept of a text.
pub(crate) fn kept(text: &[u8]) -> &[u8]
    ensures { result.now ≡ kept text.now }
{
    if has_more(&text[..word_end(text)]) {
        &text[..second_end(text)]
    } else {
        text
    }
}

/// Whether the same is kept of both.
pub(crate) fn is_same(first: &[u8], second: &[u8]) -> bool
    ensures { result ≡ same_text (kept first.now) (kept second.now) }
{
    kept(first) == kept(second)
}
