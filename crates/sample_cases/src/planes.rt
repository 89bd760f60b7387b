//! Planes by their potentials.

ghost use Rattle.std.specs.Prelude.{◌≡◌, ◌≤◌, ◌<◌, ◌^◌, IfSome, unsigned_abs};

use case_types::{Plane, SLOTS};

/// The plane of these potentials in 2^-40 bit, if each is of size below 2^80.
pub fn plane_of(lam: [i128; SLOTS]) -> Option<Plane>
    ensures lam { IfSome result (λ plane. plane.lam ≡ lam) }
{
    let limit = 1 << 80;
    let first_small = lam[0].unsigned_abs() < limit && lam[1].unsigned_abs() < limit;
    if !first_small || lam[2].unsigned_abs() >= limit || lam[3].unsigned_abs() >= limit {
        return None;
    }
    Some(Plane { lam })
}
