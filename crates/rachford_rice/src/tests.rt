//! Shares against those of an independent program.

ghost use Rattle.std.specs.Prelude.{◌≡◌, ◌≤◌, ◌^◌, IsTrue, nat_le, slice_index};
ghost use Rattle.log_laws.specs.Sums.{all_below, sum_below};
ghost use Rattle.rachford_rice.specs.Sum.{are_ratios};

use super::*;
use case_types::{Case, SLOTS};
use sample_cases::like_components;

/// A ratio of 1, in 2^-32.
const EVEN: u64 = 1 << 32;

/// Another feed of four components.
fn feed_of(z: [u32; SLOTS], total: u32) -> Case
    requires live { IsTrue (all_below 4 (λ i. nat_le 1 (slice_index z i))) }
    requires added { sum_below 4 (slice_index z) ≡ total }
    requires total { total ≤ 2 ^ 20 }
{
    let mut case = like_components(4);
    case.z = z;
    case.total = total;
    case
}

/// The share of vapour, at ratios of four components of which some may not be live.
fn share(case: &Case, k: [u64; SLOTS]) -> VapourShare
    requires { IsTrue (are_ratios 4 k) }
{
    rr(case, &k)
}

fn inside(lo: u32) -> VapourShare
    requires { lo ≤ 2 ^ 20 }
{
    VapourShare::Inside { lo, hi: lo + 1 }
}

#[test]
fn shares_of_two(rt: HostRuntime) {
    let feed = like_components(2);
    assert_eq!(rt; share(&feed, [2 * EVEN, EVEN / 2, 1, 1]), inside(524_287));
    assert_eq!(rt; share(&feed, [1 << 52, 1, 1, 1]), inside(524_287));
    assert_eq!(rt;
        share(&feed, [2 * EVEN, 1, 1, 1]),
        inside(0),
        "0 at no vapour"
    );
    assert_eq!(rt;
        share(&feed, [2 * EVEN, EVEN + 1, 1, 1]),
        VapourShare::AllVapour
    );
    assert_eq!(rt;
        share(&feed, [EVEN, EVEN, 1, 1]),
        VapourShare::AllVapour,
        "0 everywhere"
    );
    assert_eq!(rt;
        share(&feed, [EVEN / 2, EVEN - 1, 1, 1]),
        VapourShare::AllLiquid
    );
    assert_eq!(rt;
        share(&feed, [EVEN, EVEN / 2, 1, 1]),
        VapourShare::AllLiquid
    );
}

#[test]
fn shares_of_one_three_and_four(rt: HostRuntime) {
    let one = like_components(1);
    assert_eq!(rt; share(&one, [EVEN, 1, 1, 1]), VapourShare::AllVapour);
    assert_eq!(rt; share(&one, [EVEN - 1, 1, 1, 1]), VapourShare::AllLiquid);
    let three = like_components(3);
    assert_eq!(rt;
        share(&three, [20_000_000_000, 5_000_000_000, 200_000_000, 1]),
        inside(441_611)
    );
    let four = like_components(4);
    assert_eq!(rt;
        share(&four, [60_000_000_000, EVEN + 1, 1_000_000_000, 30_000_000]),
        inside(340_647)
    );
    assert_eq!(rt;
        share(&four, [30_000_000_000, 900_000_000, 100_000_000, EVEN - 1]),
        inside(277_437)
    );
}

#[test]
fn shares_of_unequal_parts(rt: HostRuntime) {
    let feed = feed_of([700_000, 200_000, 100_000, 48_576], 1_048_576);
    assert_eq!(rt;
        share(
            &feed,
            [6_000_000_000, 4_000_000_000, 900_000_000, 20_000_000]
        ),
        inside(501_435)
    );
    assert_eq!(rt;
        share(
            &feed,
            [5_000_000_000, 4_000_000_000, 4_000_000_000, 4_200_000_000]
        ),
        VapourShare::AllVapour
    );
    let heavy = feed_of([1_048_573, 1, 1, 1], 1_048_576);
    assert_eq!(rt; share(&heavy, [EVEN + 4, 1, 1, 1]), VapourShare::AllLiquid);
}
