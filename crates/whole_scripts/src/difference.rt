ghost use Rattle.std.specs.Prelude.{◌≡◌, ◌≢◌, slice_get, take, IfNone, IfSome};

/// The first index at which two texts differ: by a byte, or because one ends there.
pub(crate) fn first_difference(left: &[u8], right: &[u8]) -> Option<usize>
    ensures none { IfNone result (left.now ≡ right.now) }
    ensures same { IfSome result (λ n. take n left.now ≡ take n right.now) }
    ensures other { IfSome result (λ n. slice_get left.now n ≢ slice_get right.now n) }
{
    let common = left.len().min(right.len());
    for place in 0..common {
        if left[place] != right[place] {
            return Some(place);
        }
    }
    if left.len() == right.len() {
        return None;
    }
    Some(common)
}
