//! Examples worked by hand.

use super::*;
use std::cmp::Ordering;

#[test]
fn fractions(rt: HostRuntime) {
    let third = Frac { num: 1, den: 3 };
    let two_sixths = Frac { num: 2, den: 6 };
    let minus_half = Frac { num: -1, den: 2 };
    assert_eq!(rt; frac_cmp(third, two_sixths), Ordering::Equal);
    assert_eq!(rt; frac_cmp(minus_half, third), Ordering::Less);
    assert_eq!(rt; frac_cmp(two_sixths, minus_half), Ordering::Greater);
    assert_eq!(rt; frac_reduce(two_sixths), third);
    assert_eq!(rt;
        frac_reduce(Frac { num: -6, den: 4 }),
        Frac { num: -3, den: 2 }
    );
    assert_eq!(rt;
        frac_reduce(Frac { num: 0, den: 7 }),
        Frac { num: 0, den: 1 }
    );
}
