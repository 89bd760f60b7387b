//! Examples worked by hand.

use super::*;
use crate::digits::{log2_down, log2_up};
use crate::ends::log2_ends;
use log_laws::Iv;

#[test]
fn logarithms(rt: HostRuntime) {
    // A mantissa in 2^-61, and the ends of its logarithm in 2^-40.
    let mantissas: [(u128, u128, u128); 3] = [
        (1 << 61, 0, 0),
        (3458764513820540928, 643173071355, 643173071356),
        ((1 << 62) - 1, 1099511627775, 1099511627776),
    ];
    for (mantissa, lower, upper) in mantissas {
        assert!(rt; mantissa >= 1 << 61);
        assert!(rt; mantissa < 1 << 62);
        assert_eq!(rt; log2_down(mantissa, 40), lower, "of {mantissa}");
        assert_eq!(rt; log2_up(mantissa, 40), upper, "of {mantissa}");
        assert_eq!(rt; log2_ends(mantissa, 1 << 61, 61), (lower as i128, 0));
        assert_eq!(rt; log2_ends(1 << 61, mantissa, 61), (0, upper as i128));
    }
    let one = Iv {
        lo: 1099511627776,
        hi: 1099511627776,
    };
    assert_eq!(rt; log2_iv(Iv { lo: 2, hi: 2 }, 0), one);
    let of_e = Iv {
        lo: 1586259924992,
        hi: 1586260020565,
    };
    assert_eq!(rt; log2e(), of_e);
    // A power in 2^-40, and what it is between, in 2^-32.
    let powers: [(i128, u128, u128); 5] = [
        (0, 1 << 32, 1 << 32),
        (1 << 39, 6_074_000_000, 6_074_002_000),
        (-(1 << 40), 1 << 31, 1 << 31),
        (21 << 40, 1 << 52, 1 << 52),
        (-(33 << 40), 1, 1),
    ];
    for (power, least, greatest) in powers {
        let near = exp2_near(power);
        assert!(rt; least <= near);
        assert!(rt; near <= greatest);
    }
}

/// Twice the same numbers, of which one has the mantissa of another, and more of them than places.
#[test]
fn stores_answer_as_squarings_do(rt: HostRuntime) {
    let store = LogStore::new();
    let kept = Logarithms::Kept(&store);
    for _time in 0..2 {
        for n in [1u128, 2, 3, 6, 1 << 40, (1 << 62) - 1] {
            assert_eq!(rt; kept.lower(n, 40), log2_lo(n, 40), "of {n}");
            assert_eq!(rt; kept.upper(n, 40), log2_hi(n, 40), "of {n}");
        }
    }
    for n in 1u32..6000 {
        let n = n as u128;
        assert_eq!(rt; kept.lower(n, 40), log2_lo(n, 40), "of {n}");
    }
    let some = Iv { lo: 5, hi: 7 };
    assert_eq!(rt; kept.of(some, 3), log2_iv(some, 3));
}
