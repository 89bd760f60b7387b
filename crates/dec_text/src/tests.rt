//! Texts and their numbers, worked by hand.

use super::*;
use std::test::Fail;

const MAX: u64 = 1_000_000_000_000_000;

/// A text, its places, and what it is.
const UNSIGNED: [(&str, u32, Result<u64, DecFault>); 28] = [
    ("007.50", 3, Ok(7500)),
    ("1.0005", 3, Err(DecFault::Places)),
    ("1.0000", 3, Ok(1000)),
    ("", 0, Err(DecFault::Empty)),
    ("0", 0, Ok(0)),
    ("0", 4, Ok(0)),
    ("12", 3, Ok(12_000)),
    ("12.3", 3, Ok(12_300)),
    ("49.999", 3, Ok(49_999)),
    ("1.5", 0, Err(DecFault::Places)),
    ("1.00", 0, Ok(1)),
    ("5x", 3, Err(DecFault::Digit)),
    ("x", 0, Err(DecFault::Digit)),
    ("+300", 3, Err(DecFault::Sign)),
    ("-1", 3, Err(DecFault::Sign)),
    ("+", 0, Err(DecFault::Sign)),
    ("1.", 3, Err(DecFault::Digit)),
    (".5", 3, Err(DecFault::Digit)),
    (".", 3, Err(DecFault::Digit)),
    ("1.2.3", 3, Err(DecFault::Digit)),
    ("1.0005x", 3, Err(DecFault::Digit)),
    ("1e3", 3, Err(DecFault::Digit)),
    (" 1", 0, Err(DecFault::Digit)),
    ("1000000000000000", 0, Ok(MAX)),
    ("1000000000000001", 0, Err(DecFault::TooLarge)),
    ("1000000000000", 3, Ok(MAX)),
    ("1000000000000.001", 3, Err(DecFault::TooLarge)),
    ("1000000000000000.5", 0, Err(DecFault::Places)),
];

#[test]
fn reads_unsigned_decimals(rt: HostRuntime) -> Result<(), Fail> {
    for (text, places, want) in UNSIGNED {
        assert!(rt; places <= 4);
        assert_eq!(rt; read_dec(text.as_bytes(), places, MAX), want, "{text}");
    }
    // 24 and 25 bytes, and a maximum below the number.
    let long = b"000000000000000000000001";
    assert_eq!(rt; read_dec(long, 0, MAX), Ok(1));
    let longer = b"0000000000000000000000001";
    assert_eq!(rt; read_dec(longer, 0, MAX), Err(DecFault::Digit));
    assert_eq!(rt;
        read_dec(b"999999999999999999999999", 4, MAX),
        Err(DecFault::TooLarge)
    );
    assert_eq!(rt; read_dec(b"9", 0, 9), Ok(9));
    assert_eq!(rt; read_dec(b"9", 0, 8), Err(DecFault::TooLarge));
    assert_eq!(rt; read_dec(&[255], 0, 8), Err(DecFault::Digit));
    Ok(())
}

#[test]
fn reads_signed_decimals(rt: HostRuntime) -> Result<(), Fail> {
    // A text, its places, and what it is.
    let cases: [(&str, u32, Result<i64, DecFault>); 12] = [
        ("-0", 4, Ok(0)),
        ("-0.5", 4, Ok(-5000)),
        ("0.0114", 4, Ok(114)),
        ("-00.5000000", 4, Ok(-5000)),
        ("-0.50001", 4, Err(DecFault::Places)),
        ("-", 4, Err(DecFault::Digit)),
        ("--1", 4, Err(DecFault::Digit)),
        ("+1", 4, Err(DecFault::Sign)),
        ("-+1", 4, Err(DecFault::Digit)),
        ("", 4, Err(DecFault::Empty)),
        ("-1000000000000000", 0, Ok(-1_000_000_000_000_000)),
        ("-1000000000000001", 0, Err(DecFault::TooLarge)),
    ];
    for (text, places, want) in cases {
        assert!(rt; places <= 4);
        assert_eq!(rt; read_signed(text.as_bytes(), places, MAX), want, "{text}");
    }
    Ok(())
}

#[test]
fn reads_whole_numbers(rt: HostRuntime) -> Result<(), Fail> {
    // A text, and what it is.
    let cases: [(&str, Result<i128, DecFault>); 16] = [
        ("0", Ok(0)),
        ("7", Ok(7)),
        ("-7", Ok(-7)),
        ("", Err(DecFault::Empty)),
        ("-0", Err(DecFault::Digit)),
        ("00", Err(DecFault::Digit)),
        ("07", Err(DecFault::Digit)),
        ("-07", Err(DecFault::Digit)),
        ("-", Err(DecFault::Digit)),
        ("+7", Err(DecFault::Digit)),
        ("1.0", Err(DecFault::Digit)),
        ("85070591730234615865843651857942052863", Ok((1 << 126) - 1)),
        (
            "85070591730234615865843651857942052864",
            Err(DecFault::TooLarge),
        ),
        (
            "-85070591730234615865843651857942052863",
            Ok(1 - (1 << 126)),
        ),
        (
            "-85070591730234615865843651857942052864",
            Err(DecFault::TooLarge),
        ),
        (
            "1000000000000000000000000000000000000000000000000",
            Err(DecFault::TooLarge),
        ),
    ];
    for (text, want) in cases {
        assert_eq!(rt; read_whole(text.as_bytes()), want, "{text}");
    }
    Ok(())
}

#[test]
fn prints_numbers(rt: HostRuntime) -> Result<(), Fail> {
    // A number, its places (0 for a whole one), and its text.
    let cases: [(i128, u32, &str); 11] = [
        (0, 0, "0"),
        (-1500, 0, "-1500"),
        (i128::MAX, 0, "170141183460469231731687303715884105727"),
        (i128::MIN, 0, "-170141183460469231731687303715884105728"),
        (-1500, 3, "-1.500"),
        (0, 1, "0.0"),
        (-1, 6, "-0.000001"),
        (5, 3, "0.005"),
        (298_150, 3, "298.150"),
        (1_000_000, 6, "1.000000"),
        (i128::MIN, 6, "-170141183460469231731687303715884.105728"),
    ];
    for (v, places, want) in cases {
        assert!(rt; places <= 6);
        let text = if places == 0 {
            whole(v)
        } else {
            fixed(v, places)
        };
        assert_eq!(rt; text.as_str(), want);
    }
    Ok(())
}
