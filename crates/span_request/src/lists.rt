//! What a word lists, with commas between.
ghost use Rattle.std.specs.{List.list_any, Prelude.{◌≡◌, IfOk, map}, Str.bytes_eq};
ghost use Rattle.span_request.specs.Lists.{has_twice, names_in};

use std::alloc::{AllocError, Global};

/// What stands between commas.
pub(crate) fn names_in(alloc: Global, text: &str) -> Result<Vec<&str>, AllocError>
    ensures { IfOk result (λ names. map (λ name. name.now) names.items ≡ names_in text.now) }
{
    text.split(',').collect(alloc)
}

/// Whether a name comes twice.
pub(crate) fn has_twice(names: &[&str]) -> bool
    ensures { result ≡ has_twice (map (λ name. name.now) names.now) }
{
    match names {
        [] => false,
        [name, more @ ..] => is_among(name, more) | has_twice(more),
    }
}

fn is_among(name: &str, names: &[&str]) -> bool
    ensures { result ≡ list_any (λ other. bytes_eq other name.now) (map (λ other. other.now) names.now) }
{
    match names {
        [] => false,
        [other, more @ ..] => (*other == name) | is_among(name, more),
    }
}
