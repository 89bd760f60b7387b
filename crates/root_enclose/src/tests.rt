//! Examples worked by hand.

use super::*;
use log_laws::Iv;

#[test]
fn roots_of_whole_numbers(rt: HostRuntime) {
    let table = [
        (0, 0),
        (1, 1),
        (15, 3),
        (16, 4),
        (u128::MAX, 18446744073709551615),
    ];
    for (n, root) in table {
        assert_eq!(rt; isqrt(n), root, "of {n}");
    }
}

#[test]
fn roots_of_fractions(rt: HostRuntime) {
    let of_two = Iv {
        lo: 1630477228166597776,
        hi: 1630477228166597777,
    };
    assert_eq!(rt; root_iv(2, 1, 60), of_two);
    assert_eq!(rt; root_iv(9, 4, 10), Iv { lo: 1536, hi: 1536 });
    assert_eq!(rt; root_iv(7, 2, 0), Iv { lo: 1, hi: 2 });
    assert_eq!(rt; root_iv(0, 3, 200), Iv { lo: 0, hi: 0 });
}
