//! Worked rows: forms of two fractions; the slopes that a row doesn't name are 0.

use super::*;
use log_enclose::{Logarithms, log2e};
use log_laws::Iv;

const ZERO: Iv = Iv { lo: 0, hi: 0 };

const ONE: Iv = Iv {
    lo: 1 << 40,
    hi: 1 << 40,
};

fn form(at: Iv, over: Iv, first: Iv, second: Iv) -> Slope {
    Slope {
        at,
        over,
        by: [first, second, ZERO, ZERO],
    }
}

#[test]
fn rows(rt: HostRuntime) {
    let two = Iv {
        lo: 2 << 40,
        hi: 2 << 40,
    };
    let up_to_two = Iv { lo: 0, hi: 2 << 40 };
    let around_two = Iv {
        lo: 1 << 40,
        hi: 3 << 40,
    };
    let minus_one = Iv {
        lo: -(1 << 40),
        hi: -(1 << 40),
    };
    let f = form(ONE, up_to_two, ONE, ZERO);
    let g = form(two, around_two, ZERO, ONE);
    let positive = form(
        ONE,
        Iv {
            lo: 1 << 40,
            hi: 2 << 40,
        },
        ONE,
        ZERO,
    );
    let large = constant(Iv { lo: 0, hi: 1 << 60 });
    let three = Iv {
        lo: 3 << 40,
        hi: 3 << 40,
    };
    let up_to_five = Iv {
        lo: 1 << 40,
        hi: 5 << 40,
    };
    assert_eq!(rt; add(f, g), Some(form(three, up_to_five, ONE, ONE)));
    assert_eq!(rt; add(large, large), None);
    let down_to_three = Iv {
        lo: -(3 << 40),
        hi: 1 << 40,
    };
    assert_eq!(rt;
        sub(f, g),
        Some(form(minus_one, down_to_three, ONE, minus_one))
    );
    let up_to_six = Iv { lo: 0, hi: 6 << 40 };
    assert_eq!(rt; mul(f, g), Some(form(two, up_to_six, around_two, ONE)));
    let half = Iv {
        lo: 1 << 39,
        hi: 1 << 39,
    };
    let first = Iv {
        lo: 366503875925,
        hi: 1 << 40,
    };
    let second = Iv {
        lo: -(1 << 39),
        hi: -183251937962,
    };
    assert_eq!(rt; div(f, g), Some(form(half, up_to_two, first, second)));
    assert_eq!(rt; div(g, f), None);
    let up_to_one = Iv { lo: 0, hi: 1 << 40 };
    let of_log = Iv {
        lo: 793129962496,
        hi: 1586260020565,
    };
    assert_eq!(rt;
        log2(Logarithms::Anew, positive, log2e()),
        Some(form(ZERO, up_to_one, of_log, ZERO))
    );
    assert_eq!(rt; log2(Logarithms::Anew, f, log2e()), None);
}

#[test]
fn mixing_and_lows(rt: HostRuntime) {
    // At 1/2, between 1/4 and 1: the logarithm is -1, and it rises by half that of e at least, by twice that at most.
    let value = Iv {
        lo: -(1 << 39),
        hi: -(1 << 39),
    };
    let slope = Iv {
        lo: 793129962496 - (1 << 40),
        hi: 3172520041130 - (1 << 40),
    };
    assert_eq!(rt;
        xlogx(Logarithms::Anew, 1 << 38, 1 << 40, 1 << 39, log2e()),
        Some((value, slope))
    );
    assert_eq!(rt; xlogx(Logarithms::Anew, 0, 1, 0, log2e()), None);
    // 1, less what slopes from -2/2^40 to 3/2^40 take off over steps from -3/4 to 1/2: 2.25/2^40, rounded to 3/2^40.
    let by = Iv { lo: -2, hi: 3 };
    let step = Iv {
        lo: -3 << 38,
        hi: 1 << 39,
    };
    assert_eq!(rt;
        low(form(ONE, ONE, by, ZERO), [step, ONE, ONE, ONE]),
        (1 << 40) - 3
    );
}
