//! Where a list of files is cut so that two groups of jobs have about as much to do.
ghost use Rattle.std.specs.Prelude.{◌≤◌, ◌<◌, length};

// What a file costs beside its bytes, in bytes.
const FILE: u128 = 16_384;

/// A place at which the first `jobs` of `all` jobs have their part of the bytes before it.
pub(crate) fn cut(sizes: &[u64], jobs: u32, all: u32) -> usize
    requires { 0 < all }
    ensures { result ≤ length sizes.now }
{
    let each = weight_of(sizes) / u128::from(all);
    let wanted = each.saturating_mul(u128::from(jobs));
    let mut before: u128 = 0;
    for (place, size) in sizes.iter().enumerate() {
        if before >= wanted {
            return place;
        }
        before = before.saturating_add(FILE + u128::from(*size));
    }
    sizes.len()
}

fn weight_of(sizes: &[u64]) -> u128 {
    let mut weight: u128 = 0;
    for size in sizes {
        weight = weight.saturating_add(FILE + u128::from(*size));
    }
    weight
}
