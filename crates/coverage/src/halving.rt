// A search by halving that stops at a hit, also through calls that can fail: std's does neither.
ghost use Rattle.std.specs.Prelude.{◌≡◌, ℕ, ◌<◌, Result};
ghost use Rattle.std.specs.declared.cmp.Ordering.{Ordering};
ghost use Rattle.coverage.specs.Halving.{IsHalvingResult};

use std::cmp::Ordering;

/// An index below `count` for which `probe` answers `Equal`, if there is one, or a fault that it answers.
/// Its answers are to rise with the index: `Less` first, and `Greater` last.
pub fn halve<E, F: Fn(usize) -> Result<Ordering, E>>(
    count: usize,
    probe: F,
) -> Result<Option<usize>, E>
    requires { (k : ℕ) → k < count → F.pre probe k }
    ensures { (answer : ℕ → Result Ordering E) → ((k : ℕ) (r : Result Ordering E) → k < count → F.post probe k r → r ≡ answer k) → IsHalvingResult answer count result }
{
    let mut low = 0;
    let mut high = count;
    while low < high {
        let mid = low + (high - low) / 2;
        let side = probe(mid)?;
        // These tests compile to fewer steps than a `match`.
        if side.is_eq() {
            return Ok(Some(mid));
        }
        if side.is_lt() {
            low = mid + 1;
        } else {
            high = mid;
        }
    }
    Ok(None)
}
