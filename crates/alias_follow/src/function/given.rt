//! What is given of a function.
ghost use Rattle.std.specs.Prelude.{◌≡◌, option_map};
ghost use Rattle.alias_follow.specs.function.Givens.{given_of, blocks_given, temporaries_given, kept, limit};

use alias_base::FunctionId;
use alias_cert::functions::same_name;
use alias_certificate::{CertBlock, CertFunction, CertTemporary};

/// The first that is said of the function.
pub(crate) fn given_of(
    functions: &[CertFunction],
    function: Option<FunctionId>,
) -> Option<&CertFunction>
    ensures { option_map (λ given. given.now) result ≡ given_of functions.now function }
{
    for given in functions {
        if same_name(given.function, function) {
            return Some(given);
        }
    }
    None
}

/// What is kept of it: nothing, where the function is forward.
pub(crate) fn kept(is_forward: bool, given: Option<&CertFunction>) -> Option<&CertFunction>
    ensures { option_map (λ g. g.now) result ≡ kept is_forward (option_map (λ g. g.now) given.entry) }
{
    if is_forward { None } else { given }
}

pub(crate) fn blocks_given(given: Option<&CertFunction>) -> &[CertBlock]
    ensures { result.now ≡ blocks_given (option_map (λ g. g.now) given.entry) }
{
    match given {
        Some(given) => given.blocks.as_slice(),
        None => &[],
    }
}

pub(crate) fn temporaries_given(given: Option<&CertFunction>) -> &[CertTemporary]
    ensures { result.now ≡ temporaries_given (option_map (λ g. g.now) given.entry) }
{
    match given {
        Some(given) => given.temporaries.as_slice(),
        None => &[],
    }
}

/// How many temporaries steps may make.
pub(crate) fn limit(is_forward: bool, given: Option<&CertFunction>) -> Option<usize>
    ensures { result ≡ limit is_forward (option_map (λ g. g.now) given.entry) }
{
    if is_forward {
        None
    } else {
        Some(temporaries_given(given).len())
    }
}
