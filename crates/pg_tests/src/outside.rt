//! Sources and sinks that give pieces, run full, or fail in mid-stream, and go on behind that.
use pg_outside::{Failed, MemSink, MemSource, Sink, Source, StdSink, StdSource};
use pg_value::List;
use std::alloc::{AllocError, Global};
use std::io;
use std::io::Read;
use std::test::Fail;

fn numbers(alloc: Global, fails: &[u64]) -> Result<List<u64>, AllocError> {
    Ok(List::from_vec(Vec::from_slice(alloc, fails)?))
}

/// How many bytes a call gave or took.
fn digit(count: usize) -> u8 {
    match count {
        0 => b'0',
        1 => b'1',
        2 => b'2',
        3 => b'3',
        5 => b'5',
        6 => b'6',
        _ => b'?',
    }
}

/// Reads once with room for two bytes, and tells how many came, or `x` where the read failed.
fn read_once<S: Source>(
    source: &mut S,
    read: &mut Vec<u8>,
    told: &mut Vec<u8>,
) -> Result<(), AllocError> {
    let mut into = [0; 2];
    match source.read(&mut into) {
        Ok(count) => {
            read.extend_from_slice(&into[..count])?;
            told.push(digit(count))?;
        }
        Err(Failed) => told.push(b'x')?,
    }
    Ok(())
}

/// What six reads told, and the bytes that they gave.
fn six_reads<S: Source>(alloc: Global, source: &mut S) -> Result<Vec<u8>, AllocError> {
    let mut read = Vec::new(alloc);
    let mut told = Vec::new(alloc);
    for _ in 0..6 {
        read_once(source, &mut read, &mut told)?;
    }
    told.push(b' ')?;
    told.extend_from_slice(read.as_slice())?;
    Ok(told)
}

/// The most bytes of a read of `abc`, the reads that fail, by their numbers from 1, and what six reads tell.
const READS: &[(usize, &[u64], &str)] = &[
    (1, &[0, 0], "111000 abc"),
    (9, &[0, 7], "210000 abc"),
    (9, &[3, 1], "x2x100 abc"),
    (1, &[5, 6], "1110xx abc"),
];

#[test]
fn sources_give_pieces_and_fail_by_number(rt: HostRuntime) -> Result<(), Fail> {
    let alloc = rt.alloc();
    for (piece, fails, want) in READS {
        assert!(rt; 0 < *piece);
        let bytes = List::from_vec(Vec::from_slice(alloc, b"abc".as_slice())?);
        let mut source = MemSource::new(bytes, *piece, numbers(alloc, *fails)?);
        assert_eq!(rt; six_reads(alloc, &mut source)?.as_slice(), want.as_bytes());
    }
    Ok(())
}

/// A reader that gives a byte, fails, and then gives bytes again.
#[derive(Drop)]
struct Faltering {
    calls: u8,
}

impl Read for Faltering {
    fn read(&mut self, into: &mut [u8]) -> io::Result<usize> {
        self.calls = self.calls.saturating_add(1);
        if self.calls == 2 {
            return Err(io::Error::from(io::ErrorKind::Other));
        }
        match into.first_mut() {
            Some(byte) => {
                *byte = b'a';
                Ok(1)
            }
            None => Ok(0),
        }
    }
}

#[test]
fn readers_are_sources(rt: HostRuntime) -> Result<(), Fail> {
    let mut source = StdSource::new(b"abc".as_slice());
    let told = six_reads(rt.alloc(), &mut source)?;
    assert_eq!(rt; told.as_slice(), b"210000 abc".as_slice());
    let mut source = StdSource::new(Faltering { calls: 0 });
    let told = six_reads(rt.alloc(), &mut source)?;
    assert_eq!(rt; told.as_slice(), b"1x1111 aaaaa".as_slice());
    Ok(())
}

/// Writes once what is left, tells how many bytes were taken, or `x` where the write failed, and gives what is left then.
fn write_once<'a, K: Sink>(
    sink: &mut K,
    rest: &'a [u8],
    told: &mut Vec<u8>,
) -> Result<&'a [u8], AllocError> {
    if rest.is_empty() {
        return Ok(rest);
    }
    match sink.write(rest) {
        Ok(count) => {
            told.push(digit(count))?;
            Ok(&rest[count..])
        }
        Err(Failed) => {
            told.push(b'x')?;
            Ok(rest)
        }
    }
}

/// What six writes of `abcdef` told, each of what was not yet taken.
fn six_writes<K: Sink>(alloc: Global, sink: &mut K) -> Result<Vec<u8>, AllocError> {
    let mut told = Vec::new(alloc);
    let mut rest = b"abcdef".as_slice();
    for _ in 0..6 {
        rest = write_once(sink, rest, &mut told)?;
    }
    Ok(told)
}

/// The most bytes of a write to a sink with room for five, the writes that fail, and what six writes tell.
const WRITES: &[(usize, &[u64], &str)] = &[
    (1, &[0, 0], "11111x"),
    (9, &[0, 7], "5xxxxx"),
    (2, &[3, 1], "x2x21x"),
];

#[test]
fn sinks_take_pieces_and_fail_by_number(rt: HostRuntime) -> Result<(), Fail> {
    let alloc = rt.alloc();
    for (piece, fails, want) in WRITES {
        assert!(rt; 0 < *piece);
        let mut sink = MemSink::new(alloc, 5, *piece, numbers(alloc, *fails)?)?;
        assert_eq!(rt; six_writes(alloc, &mut sink)?.as_slice(), want.as_bytes());
        assert_eq!(rt; sink.bytes(), b"abcde".as_slice());
    }
    Ok(())
}

/// A list takes all, and a slice of memory nothing once it is full.
#[test]
fn writers_are_sinks(rt: HostRuntime) -> Result<(), Fail> {
    let mut held = Vec::new(rt.alloc());
    let told = six_writes(rt.alloc(), &mut StdSink::new(&mut held))?;
    assert_eq!(rt; told.as_slice(), b"6".as_slice());
    assert_eq!(rt; held.as_slice(), b"abcdef".as_slice());

    let mut room = [0; 5];
    let mut sink = StdSink::new(room.as_mut_slice());
    let told = six_writes(rt.alloc(), &mut sink)?;
    assert_eq!(rt; told.as_slice(), b"5xxxxx".as_slice());
    assert_eq!(rt; room.as_slice(), b"abcde".as_slice());
    Ok(())
}
