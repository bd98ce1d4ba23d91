//! Whether each number occurs just once.
ghost use Rattle.std.specs.Prelude.{◌≡◌, ◌<◌, ℕ, All, IfOk, MatchOption, None, count_by, length, slice_index_or};
ghost use Rattle.std.specs.Option.{ForSome};
ghost use Rattle.layout_check.specs.Helds.{IsOnceFault, is_number};

use std::alloc::{AllocError, Global};

/// A number that doesn't occur just once: at which two places it occurs, or that it doesn't.
#[derive(Clone, Copy)]
pub(crate) enum OnceFault {
    Twice(usize, usize, usize),
    Never(usize),
}

/// The first number without a place.
fn first_never(places: &[Option<usize>]) -> Option<usize>
    ensures { MatchOption result
        ((k : ℕ) → k < length places.now → slice_index_or places.now k None ≡ None → ⊥)
        (λ k. (k < length places.now) × (slice_index_or places.now k None ≡ None)) }
{
    for (number, place) in places.iter().enumerate() {
        if place.is_none() {
            return Some(number);
        }
    }
    None
}

/// The first number below the count that doesn't occur just once.
pub(crate) fn check_once(
    alloc: Global,
    numbers: &[Option<usize>],
    count: usize,
) -> Result<Option<OnceFault>, AllocError>
    requires { All (λ number. ForSome number (λ k. k < count)) numbers.now }
    ensures { IfOk result (λ fault. MatchOption fault
        ((k : ℕ) → k < count → count_by (is_number k) numbers.now ≡ 1)
        (IsOnceFault numbers.now count)) }
{
    let mut places = Vec::from_elem(alloc, None, count)?;
    for place in 0..numbers.len() {
        if let Some(number) = numbers[place] {
            if let Some(earlier) = places[number] {
                return Ok(Some(OnceFault::Twice(number, earlier, place)));
            }
            places[number] = Some(place);
        }
    }
    match first_never(places.as_slice()) {
        Some(number) => Ok(Some(OnceFault::Never(number))),
        None => Ok(None),
    }
}
