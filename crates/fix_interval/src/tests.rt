//! Examples worked by hand.

use super::*;

const SMALL: Iv = Iv { lo: -3, hi: 5 };

const OTHER: Iv = Iv { lo: -7, hi: 2 };

const POSITIVE: Iv = Iv { lo: 2, hi: 4 };

const TOP: i128 = (1 << 61) - 1;

#[test]
fn sums(rt: HostRuntime) {
    assert_eq!(rt; add(SMALL, OTHER), Iv { lo: -10, hi: 7 });
    assert_eq!(rt; sub(SMALL, OTHER), Iv { lo: -5, hi: 12 });
    assert_eq!(rt; hull(SMALL, OTHER), Iv { lo: -7, hi: 5 });
    assert_eq!(rt; hull(POSITIVE, POSITIVE), POSITIVE);
}

#[test]
fn products_and_quotients(rt: HostRuntime) {
    // the products are 21, -6, -35 and 10
    assert_eq!(rt; mul_shift(SMALL, OTHER, 2), Iv { lo: -9, hi: 6 });
    let wide = Iv {
        lo: -(1 << 61),
        hi: 1 << 61,
    };
    assert_eq!(rt;
        mul_ends(wide, Iv { lo: 3, hi: 8 }, 1),
        (-(1 << 63), 1 << 63)
    );

    assert_eq!(rt; square_shift(SMALL, 1), Iv { lo: 0, hi: 13 });
    assert_eq!(rt;
        square_shift(Iv { lo: -7, hi: -3 }, 2),
        Iv { lo: 2, hi: 13 }
    );
    assert_eq!(rt; square_shift(Iv { lo: 3, hi: 5 }, 0), Iv { lo: 9, hi: 25 });

    assert_eq!(rt;
        div_shift(Iv { lo: -7, hi: 9 }, POSITIVE, 1),
        Iv { lo: -7, hi: 9 }
    );
    assert_eq!(rt;
        div_shift(Iv { lo: 7, hi: 9 }, POSITIVE, 0),
        Iv { lo: 1, hi: 5 }
    );
    assert_eq!(rt;
        div_ends(Iv { lo: -8, hi: 8 }, Iv { lo: 1, hi: 2 }, 60),
        (-(1 << 63), 1 << 63)
    );
}

#[test]
fn caps(rt: HostRuntime) {
    assert_eq!(rt; cap(-TOP, TOP), Some(Iv { lo: -TOP, hi: TOP }));
    for (lo, hi) in [(0, TOP + 1), (-TOP - 1, 0), (1, 0)] {
        assert_eq!(rt; cap(lo, hi), None, "from {lo} to {hi}");
    }
}

#[test]
fn ratios(rt: HostRuntime) {
    assert_eq!(rt; ratio_floor(2, 3, 2), 2);
    assert_eq!(rt; ratio_ends(2, 3, 2), (2, 3));
    assert_eq!(rt; ratio_ends(6, 3, 1), (4, 4));
    // 2^128 = 3 * 113427455640312821154458202477256070485 + 1
    let third = 113427455640312821154458202477256070485;
    assert_eq!(rt; ratio_floor(1, 3, 128), third);
    assert_eq!(rt; ratio_ends(1, 3, 128), (third, third + 1));
}
