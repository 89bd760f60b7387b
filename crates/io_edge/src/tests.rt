//! Ends in memory that fail where they are to, and whole texts through them.

ghost use Rattle.std.specs.Prelude.{◌<◌};

use super::*;
use std::alloc::Global;
use std::io::{self, Read, Write};
use std::test::Fail;

const TEXT: &[u8] = b"abcdefghijklmnopqrstuvwxyz";

/// A source of `TEXT`.
fn text_source(alloc: Global, piece: usize, fails: &[u64]) -> Result<MemSource, Memory>
    requires { 0 < piece }
{
    Ok(MemSource::new(TEXT.to_vec(alloc)?, piece, fails.to_vec(alloc)?))
}

#[test]
fn reads_text_to_its_end_or_stops(rt: HostRuntime) -> Result<(), Fail> {
    let alloc = rt.alloc();
    // The size of a piece, the calls that fail, the limit, the answer, how many bytes are left.
    let cases: [(usize, &[u64], usize, Result<(), ReadStop>, usize); 9] = [
        (10, &[], 26, Ok(()), 0),
        (1, &[], 26, Ok(()), 0),
        (100, &[3], 100, Ok(()), 0),
        (10, &[2], 26, Err(ReadStop::Failed), 16),
        (10, &[1, 2], 26, Err(ReadStop::Failed), 26),
        (10, &[4], 26, Err(ReadStop::Failed), 0),
        (10, &[], 25, Err(ReadStop::TooLong), 0),
        (10, &[], 12, Err(ReadStop::TooLong), 13),
        (10, &[], 0, Err(ReadStop::TooLong), 25),
    ];
    for (piece, fails, limit, want, left) in cases {
        assert!(rt; piece > 0);
        let mut source = text_source(alloc, piece, fails)?;
        let answer = match read_all(alloc, &mut source, limit) {
            Ok(bytes) => {
                assert_eq!(rt; bytes.as_slice(), TEXT);
                Ok(())
            }
            Err(stop) => Err(stop),
        };
        assert_eq!(rt; answer, want, "pieces of {piece}, limit {limit}");
        assert_eq!(rt;
            source.left().len(),
            left,
            "pieces of {piece}, limit {limit}"
        );
    }
    Ok(())
}

#[test]
fn goes_on_after_a_fault(rt: HostRuntime) -> Result<(), Fail> {
    let alloc = rt.alloc();
    let mut source = text_source(alloc, 10, &[2])?;
    assert!(rt; read_all(alloc, &mut source, 26).is_err());
    let rest = read_all(alloc, &mut source, 26);
    assert_eq!(rt;
        rest.ok().ok_or("stopped")?.as_slice(),
        b"klmnopqrstuvwxyz".as_slice()
    );
    Ok(())
}

#[test]
fn reads_more_than_one_buffer(rt: HostRuntime) -> Result<(), Fail> {
    let alloc = rt.alloc();
    // The limit, and whether the 10,000 bytes pass it.
    for (limit, passes) in [(9_999u32, true), (10_000, false), (4_194_304, false)] {
        let bytes = vec![in alloc; b'x'; 10_000]?;
        let mut source = MemSource::new(bytes, 10_000, Vec::new(alloc));
        match read_all(alloc, &mut source, limit as usize) {
            Ok(read) => assert!(rt; !passes && read.len() == 10_000, "limit {limit}"),
            Err(stop) => assert!(rt; passes && stop == ReadStop::TooLong, "limit {limit}"),
        }
    }
    Ok(())
}

#[test]
fn writes_all_or_a_prefix(rt: HostRuntime) -> Result<(), Fail> {
    let alloc = rt.alloc();
    // The room, the size of a piece, the puts that fail, the answer, how many bytes are held.
    let cases: [(usize, usize, &[u64], Result<(), WriteFault>, usize); 8] = [
        (26, 10, &[], Ok(()), 26),
        (26, 1, &[], Ok(()), 26),
        (100, 100, &[2], Ok(()), 26),
        (100, 10, &[2], Err(WriteFault), 10),
        (100, 10, &[1], Err(WriteFault), 0),
        (25, 10, &[], Err(WriteFault), 25),
        (0, 10, &[], Err(WriteFault), 0),
        (10, 10, &[2], Err(WriteFault), 10),
    ];
    for (room, piece, fails, want, held) in cases {
        assert!(rt; piece > 0);
        let mut sink = MemSink::new(alloc, room, piece, fails.to_vec(alloc)?)?;
        let answer = write_all(&mut sink, TEXT);
        assert_eq!(rt; answer, want, "room {room}, pieces of {piece}");
        assert_eq!(rt;
            Some(sink.held()),
            TEXT.get(..held),
            "room {room}, pieces of {piece}"
        );
    }
    Ok(())
}

#[test]
fn puts_the_least_of_piece_and_room(rt: HostRuntime) -> Result<(), Fail> {
    let alloc = rt.alloc();
    let mut sink = MemSink::new(alloc, 6, 4, [2, 4].to_vec(alloc)?)?;
    // The fourth put has no room and is planned to fail: one fault, so that the fifth is next.
    let answers = [
        Put::Wrote(4),
        Put::Failed,
        Put::Wrote(2),
        Put::Failed,
        Put::Failed,
    ];
    for want in answers {
        assert_eq!(rt; sink.put(b"abcde"), want);
    }
    assert_eq!(rt; sink.held(), b"abcdab".as_slice());
    Ok(())
}

#[test]
fn adapts_a_reader(rt: HostRuntime) {
    let mut source = StdSource::new(b"abcde".as_slice());
    let mut buf = [0; 3];
    // What each call answers, and what the buffer holds then.
    let answers = [
        (Taken::Bytes(3), *b"abc"),
        (Taken::Bytes(2), *b"dec"),
        (Taken::End, *b"dec"),
        (Taken::End, *b"dec"),
    ];
    for (want, bytes) in answers {
        assert_eq!(rt; source.take(&mut buf), want);
        assert_eq!(rt; buf, bytes);
    }
    assert_eq!(rt; StdSource::new(Broken).take(&mut buf), Taken::Failed);
}

#[test]
fn adapts_a_writer(rt: HostRuntime) {
    let mut bytes = Vec::new(rt.alloc());
    let mut sink = StdSink::new(&mut bytes);
    assert_eq!(rt; write_all(&mut sink, b"ab"), Ok(()));
    assert_eq!(rt; sink.put(b"cd"), Put::Wrote(2));
    assert_eq!(rt; bytes.as_slice(), b"abcd".as_slice());

    // A writer that takes one byte and then none.
    let mut full = [0];
    let mut sink = StdSink::new(full.as_mut_slice());
    assert_eq!(rt; sink.put(b"ab"), Put::Wrote(1));
    assert_eq!(rt; sink.put(b"b"), Put::Failed);
    assert_eq!(rt; StdSink::new(Broken).put(b"ab"), Put::Failed);
}

#[test]
fn moves_a_byte_at_a_time(rt: HostRuntime) -> Result<(), Fail> {
    let alloc = rt.alloc();
    // In memory, both ways.
    let mut source = text_source(alloc, 1, &[])?;
    let mut sink = MemSink::new(alloc, TEXT.len(), 1, Vec::new(alloc))?;
    let read = read_all(alloc, &mut source, 26).ok().ok_or("stopped")?;
    assert_eq!(rt; read.as_slice(), TEXT);
    assert_eq!(rt; source.take(&mut [0; 4]), Taken::End);
    assert_eq!(rt; write_all(&mut sink, &read), Ok(()));
    assert_eq!(rt; sink.held(), TEXT);

    // By the adapters: each call moves one byte, and each byte is a call.
    let mut source = StdSource::new(Trickle {
        left: 3,
        bytes: Vec::new(alloc),
    });
    let mut buf = [0; 4];
    for _ in 0..3 {
        assert_eq!(rt; source.take(&mut buf), Taken::Bytes(1));
    }
    assert_eq!(rt; source.take(&mut buf), Taken::End);
    let mut source = StdSource::new(Trickle {
        left: 26,
        bytes: Vec::new(alloc),
    });
    let read = read_all(alloc, &mut source, 26).ok().ok_or("stopped")?;
    assert_eq!(rt; read.len(), 26);
    let mut writer = Trickle {
        left: 0,
        bytes: Vec::new(alloc),
    };
    let mut sink = StdSink::new(&mut writer);
    assert_eq!(rt; sink.put(TEXT), Put::Wrote(1));
    assert_eq!(rt; write_all(&mut sink, &TEXT[1..]), Ok(()));
    assert_eq!(rt; writer.bytes.as_slice(), TEXT);
    Ok(())
}

/// A reader that gives one byte a call until none is left, and a writer that takes one byte a call.
#[derive(Drop)]
struct Trickle {
    left: u8,
    bytes: Vec<u8>,
}

impl Read for Trickle {
    fn read(&mut self, buf: &mut [u8]) -> io::Result<usize> {
        if self.left == 0 || buf.is_empty() {
            return Ok(0);
        }
        self.left -= 1;
        buf[0] = b'x';
        Ok(1)
    }
}

impl Write for Trickle {
    fn write(&mut self, buf: &[u8]) -> io::Result<usize> {
        if buf.is_empty() {
            return Ok(0);
        }
        match self.bytes.push(buf[0]) {
            Ok(()) => Ok(1),
            Err(_) => Err(io::ErrorKind::OutOfMemory.into()),
        }
    }

    fn flush(&mut self) -> io::Result<()> {
        Ok(())
    }
}

/// A reader that fails, and a writer that takes its bytes and cannot flush them.
#[derive(Drop)]
struct Broken;

impl Read for Broken {
    fn read(&mut self, _: &mut [u8]) -> io::Result<usize> {
        Err(io::ErrorKind::Other.into())
    }
}

impl Write for Broken {
    fn write(&mut self, buf: &[u8]) -> io::Result<usize> {
        Ok(buf.len())
    }

    fn flush(&mut self) -> io::Result<()> {
        Err(io::ErrorKind::Other.into())
    }
}
