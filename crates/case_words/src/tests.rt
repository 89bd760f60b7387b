//! Words and their jobs, worked by hand.

use super::*;
use case_types::Edition;
use dec_text::DecFault;
use std::alloc::{AllocError, Global};
use std::test::Fail;

/// The words of a line, parted by spaces; an empty line has none.
pub fn words_of(alloc: Global, line: &str) -> Result<Vec<Word>, AllocError> {
    let mut words = Vec::new(alloc);
    for text in line.split_whitespace() {
        words.push(Word::new(text.as_bytes().to_vec(alloc)?))?;
    }
    Ok(words)
}

/// The fault of a line's words, or none.
fn fault_of(alloc: Global, line: &str) -> Result<Option<WordFault>, AllocError> {
    Ok(read_words(&words_of(alloc, line)?).err())
}

/// A line of words, and its first fault.
const REFUSED: [(&str, WordFault); 69] = [
    ("", WordFault::NoCommand),
    ("pt", WordFault::NoCommand),
    ("TP T=300", WordFault::NoCommand),
    ("gen n=7", WordFault::NoCommand),
    ("Cert T=300", WordFault::NoCommand),
    ("checks", WordFault::NoCommand),
    ("chec", WordFault::NoCommand),
    ("cert", WordFault::Missing(Key::T)),
    ("cert T=300", WordFault::Missing(Key::P)),
    ("cert T=300 T=300", WordFault::Twice(3)),
    ("cert T=49.999", WordFault::Range(2)),
    ("cert T=5x", WordFault::Value(2, DecFault::Digit)),
    ("cert X=1", WordFault::Unknown(2)),
    ("cert z=1,1 names=a", WordFault::Count(3)),
    ("cert kappa=77", WordFault::Range(2)),
    (
        "cert T=300 P=1000000 z=1 names=a tol=1024",
        WordFault::Missing(Key::Budget),
    ),
    ("check x=1", WordFault::Unknown(2)),
    ("check T=300", WordFault::Unknown(2)),
    ("check kappa=76 x", WordFault::Unknown(2)),
    ("check check", WordFault::Unknown(2)),
    ("tp", WordFault::Missing(Key::T)),
    ("tp T=300 T=300", WordFault::Twice(3)),
    ("tp T=49.999", WordFault::Range(2)),
    ("tp T=1500.001", WordFault::Range(2)),
    ("tp T=5x", WordFault::Value(2, DecFault::Digit)),
    ("tp T=+300", WordFault::Value(2, DecFault::Sign)),
    ("tp T=-300", WordFault::Value(2, DecFault::Sign)),
    ("tp T=300.0005", WordFault::Value(2, DecFault::Places)),
    (
        "tp T=1000000000000.001",
        WordFault::Value(2, DecFault::TooLarge),
    ),
    ("tp T=1000000000000", WordFault::Range(2)),
    ("tp T=", WordFault::Value(2, DecFault::Empty)),
    ("tp X=1", WordFault::Unknown(2)),
    ("tp t=300", WordFault::Unknown(2)),
    ("tp lo=300", WordFault::Unknown(2)),
    ("tp =300", WordFault::Unknown(2)),
    ("tp T", WordFault::Unknown(2)),
    ("tp T==300", WordFault::Value(2, DecFault::Digit)),
    ("tp T=300 X=1 T=300", WordFault::Unknown(3)),
    ("tp T=300 T=5x", WordFault::Twice(3)),
    ("tp P=999", WordFault::Range(2)),
    ("tp P=100000001", WordFault::Range(2)),
    ("tp P=1000.5", WordFault::Value(2, DecFault::Places)),
    ("tp z=1,1 names=a", WordFault::Count(3)),
    ("tp names=a z=1,1", WordFault::Count(3)),
    ("tp names=a,b,a z=1,1", WordFault::Twice(2)),
    ("tp z=0", WordFault::Range(2)),
    ("tp z=0,0", WordFault::Range(2)),
    ("tp z=1048577", WordFault::Range(2)),
    ("tp z=1048576,1", WordFault::Range(2)),
    ("tp z=", WordFault::Value(2, DecFault::Empty)),
    ("tp z=1,", WordFault::Value(2, DecFault::Empty)),
    ("tp z=1048577,x", WordFault::Range(2)),
    ("tp z=x,1,1,1,1", WordFault::Count(2)),
    ("tp names=", WordFault::Value(2, DecFault::Empty)),
    ("tp names=a.b", WordFault::Value(2, DecFault::Digit)),
    (
        "tp names=abcdefghijklmnopq",
        WordFault::Value(2, DecFault::Digit),
    ),
    ("tp names=a,b,c,d,e", WordFault::Count(2)),
    ("tp tol=127", WordFault::Range(2)),
    ("tp budget=0", WordFault::Range(2)),
    ("tp budget=10000001", WordFault::Range(2)),
    (
        "tp T=300 P=1000000 z=1 names=a tol=1024",
        WordFault::Missing(Key::Budget),
    ),
    (
        "tp T=300 P=1000000 z=1 names=a tol=1024 budget=1 kappa=77",
        WordFault::Range(8),
    ),
    (
        "tp T=300 P=1000000 z=1 names=a tol=1024 budget=1 kappa=x",
        WordFault::Value(8, DecFault::Digit),
    ),
    ("tp kappa=75", WordFault::Range(2)),
    ("tp kappa=79", WordFault::Range(2)),
    ("tp kappa=1976", WordFault::Range(2)),
    ("tp kappa=76.5", WordFault::Value(2, DecFault::Places)),
    ("tp kappa=76 kappa=78", WordFault::Twice(3)),
    ("tp kappa=78", WordFault::Missing(Key::T)),
];

#[test]
fn refuses_the_first_fault(rt: HostRuntime) -> Result<(), Fail> {
    for (line, want) in REFUSED {
        assert_eq!(rt; fault_of(rt.alloc(), line)?, Some(want), "{line}");
    }
    Ok(())
}

#[test]
fn names_the_first_missing_key(rt: HostRuntime) -> Result<(), Fail> {
    let cases: [(&str, Key); 6] = [
        ("tp budget=1 tol=128 names=a z=1 P=1000", Key::T),
        ("tp budget=1 tol=128 names=a z=1 T=50", Key::P),
        ("tp budget=1 T=50 P=1000", Key::Z),
        ("tp z=1 T=50 P=1000", Key::Names),
        ("tp names=a z=1 T=50 P=1000", Key::Tol),
        ("tp tol=128 names=a z=1 T=50 P=1000", Key::Budget),
    ];
    for (line, key) in cases {
        assert_eq!(rt;
            fault_of(rt.alloc(), line)?,
            Some(WordFault::Missing(key)),
            "{line}"
        );
    }
    Ok(())
}

#[test]
fn reads_the_edition(rt: HostRuntime) -> Result<(), Fail> {
    let cases: [(&str, Edition); 5] = [
        (
            "tp T=300 P=1000 z=1 names=a tol=128 budget=1",
            Edition::Y1976,
        ),
        (
            "tp T=300 P=1000 z=1 names=a tol=128 budget=1 kappa=76",
            Edition::Y1976,
        ),
        (
            "tp T=300 P=1000 z=1 names=a tol=128 budget=1 kappa=78",
            Edition::Y1978,
        ),
        (
            "tp kappa=078.0 T=300 P=1000 z=1 names=a tol=128 budget=1",
            Edition::Y1978,
        ),
        (
            "tp T=300 kappa=76.00 P=1000 z=1 names=a tol=128 budget=1",
            Edition::Y1976,
        ),
    ];
    for (line, want) in cases {
        let words = words_of(rt.alloc(), line)?;
        let Ok(Job::Tp(asked)) = read_words(&words) else {
            return Err("refused".into());
        };
        assert_eq!(rt; asked.edition, want, "{line}");
    }
    Ok(())
}

#[test]
fn reads_the_commands(rt: HostRuntime) -> Result<(), Fail> {
    let words = words_of(
        rt.alloc(),
        "cert T=300.5 kappa=78 P=1000000 z=1,0 names=a,b tol=1024 budget=200000",
    )?;
    let Ok(Job::Cert(asked)) = read_words(&words) else {
        return Err("no certificate".into());
    };
    assert_eq!(rt; asked.t, 300_500);
    assert_eq!(rt; asked.z.as_slice(), [1, 0].as_slice());
    assert_eq!(rt; asked.names.len(), 2);
    assert_eq!(rt; asked.edition, Edition::Y1978);
    let words = words_of(rt.alloc(), "check")?;
    let Ok(Job::Check) = read_words(&words) else {
        return Err("no check".into());
    };
    Ok(())
}

#[test]
fn reads_keys_in_any_order(rt: HostRuntime) -> Result<(), Fail> {
    let cases: [&str; 3] = [
        "tp T=300.5 P=1000000 z=1,0,2 names=Az_0-9,b,abcdefghijklmnop tol=1024 budget=200000",
        "tp budget=200000 tol=1024 names=Az_0-9,b,abcdefghijklmnop z=1,0,2 P=1000000 T=300.5",
        "tp z=001,00,2.0 T=0300.5000 names=Az_0-9,b,abcdefghijklmnop P=1000000.0 tol=01024 budget=200000",
    ];
    for line in cases {
        let words = words_of(rt.alloc(), line)?;
        let Ok(Job::Tp(asked)) = read_words(&words) else {
            return Err("refused".into());
        };
        assert_eq!(rt; asked.t, 300_500);
        assert_eq!(rt; asked.p, 1_000_000);
        assert_eq!(rt; asked.z.as_slice(), [1, 0, 2].as_slice());
        assert_eq!(rt; asked.tol, 1024);
        assert_eq!(rt; asked.budget, 200_000);
        let mut names = asked.names.iter().map(name_text);
        assert_eq!(rt; names.next(), Some(b"Az_0-9".as_slice()));
        assert_eq!(rt; names.next(), Some(b"b".as_slice()));
        assert_eq!(rt; names.next(), Some(b"abcdefghijklmnop".as_slice()));
        assert_eq!(rt; names.next(), None);
    }
    Ok(())
}
