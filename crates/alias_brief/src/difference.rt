//! The first line in which a text differs from the one that is expected.
ghost use Rattle.std.specs.Prelude.{◌≡◌, ◌<◌, ◌∷◌, ◌++◌, ◌⊎◌, ◌↔◌, [], length, None, option_map, MatchOption};
ghost use Rattle.alias_brief.specs.Differences.{IsOneLine, whole_lines, bare, at_line, difference_from, first_difference};

use memchr::memchr;

/// A line in which a text differs from the one that is expected.
#[derive(Clone, Copy, Debug, PartialEq, Eq)]
pub struct Difference<'a> {
    /// The number of the line, from 1.
    pub number: usize,
    /// The line that is expected, without its newline: empty where the text that is expected ends before it.
    pub line: &'a str,
}

/// What stands before the first newline, and what stands after it, where there is one.
fn line_and_rest(text: &str) -> Option<(&str, &str)>
    ensures { MatchOption result (IsOneLine text.now) (λ parts. (text.now ≡ parts.0.now ++ (10 ∷ parts.1.now)) × IsOneLine parts.0.now) }
{
    text.split_once('\n')
}

/// The first line of what is expected: without its newline, with it where it has one, and what follows it.
fn first_expected(expected: &str) -> (&str, &[u8], &str)
    requires { 0 < length expected.now }
    ensures lines { whole_lines expected.now ≡ result.1.now ∷ whole_lines result.2.now }
    ensures bare { result.0.now ≡ bare result.1.now }
{
    match line_and_rest(expected) {
        Some((line, after)) => (line, &expected.as_bytes()[..line.len() + 1], after),
        None => (expected, expected.as_bytes(), ""),
    }
}

/// The first line, with its newline where it has one, and what follows it.
fn first_line(text: &[u8]) -> (&[u8], &[u8])
    requires { 0 < length text.now }
    ensures lines { whole_lines text.now ≡ result.0.now ∷ whole_lines result.1.now }
    ensures shorter { length result.1.now < length text.now }
{
    match memchr(b'\n', text) {
        Some(end) => (&text[..end + 1], &text[end + 1..]),
        None => (text, &[]),
    }
}

/// Where texts differ of which one has ended: nothing where both have.
#[tactic(auto, using(crate::proofs::Lines::none_expected))]
fn at_end<'a>(number: usize, expected: &'a str, text: &[u8]) -> Option<Difference<'a>>
    requires { (expected.now ≡ []) ⊎ (text.now ≡ []) }
    ensures { option_map at_line result ≡ difference_from number (whole_lines expected.now) (whole_lines text.now) }
{
    if !expected.is_empty() {
        let line = first_expected(expected).0;
        return Some(Difference { number, line });
    }
    if !text.is_empty() {
        let line = expected;
        return Some(Difference { number, line });
    }
    None
}

fn difference_between<'a>(expected: &'a str, text: &[u8]) -> Option<Difference<'a>>
    ensures { option_map at_line result ≡ first_difference expected.now text.now }
{
    let mut number = 1;
    let mut expected_left = expected;
    let mut left = text;
    'lines: while !expected_left.is_empty() && !left.is_empty() {
        let (line, whole, expected_after) = first_expected(expected_left);
        let (other, after) = first_line(left);
        if whole != other {
            return Some(Difference { number, line });
        }
        number += 1;
        expected_left = expected_after;
        left = after;
    }
    at_end(number, expected_left, left)
}

/// Nothing where the texts are the same, and else the first line that differs.
#[tactic(auto, using(crate::proofs::Lines::none_where_same))]
fn difference_found<'a>(expected: &'a str, text: &[u8]) -> Option<Difference<'a>>
    ensures { option_map at_line result ≡ first_difference expected.now text.now }
{
    // Compared as a whole first, which takes a fraction of the time of a walk line by line.
    if expected.as_bytes() == text {
        return None;
    }
    difference_between(expected, text)
}

/// The first line in which a text differs from the one that is expected, and nothing where they are the same. The
/// last line of a text may lack its newline, and differs then from one that has it. Takes no memory, and reads each
/// byte of both texts at most three times.
#[tactic(auto, using(crate::proofs::Lines::same_where_none))]
pub fn first_difference<'a>(expected: &'a str, text: &[u8]) -> Option<Difference<'a>>
    ensures difference { option_map at_line result ≡ first_difference expected.now text.now }
    ensures same { (result ≡ None) ↔ (expected.now ≡ text.now) }
{
    difference_found(expected, text)
}
