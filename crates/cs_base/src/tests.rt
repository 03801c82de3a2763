ghost use Rattle.std.specs.Prelude.{◌<◌};

use crate::{
    Failed, MemSink, MemSource, ReadFault, Sink, Source, StdSink, StdSource, Whole, Words,
    read_all, write_whole,
};
use std::alloc::Global;
use std::fs;
use std::test::Fail;

/// What reading up to the limit gives; `None` where there is more.
fn taken(alloc: Global, bytes: &[u8], most: usize, limit: usize) -> Result<Option<Vec<u8>>, Fail>
    requires { 0 < most }
{
    let mut source = MemSource::new(Vec::from_slice(alloc, bytes)?, most, Vec::new(alloc));
    match read_all(alloc, &mut source, limit)? {
        Whole::Bytes(bytes) => Ok(Some(bytes)),
        Whole::More => Ok(None),
    }
}

#[test]
fn reads_up_to_the_limit(rt: HostRuntime) -> Result<(), Fail> {
    let alloc = rt.alloc();
    for most in [1, 3, 9] {
        let four = taken(alloc, b"abcd", most, 4)?.ok_or("more")?;
        assert_eq!(rt; four.as_slice(), b"abcd".as_slice());
        assert!(rt; taken(alloc, b"abcde", most, 4)?.is_none());
    }
    Ok(())
}

#[test]
fn chosen_calls_fail(rt: HostRuntime) -> Result<(), Fail> {
    let alloc = rt.alloc();
    let mut source = MemSource::new(Vec::from_slice(alloc, b"abc")?, 2, vec![in alloc; 1, 3]?);
    assert!(rt; source.begin(None).is_err());
    assert!(rt; source.begin(None).is_ok());
    assert!(rt; matches!(read_all(alloc, &mut source, 9), Err(ReadFault::Fault)));
    let mut rest = [0u8; 9];
    assert_eq!(rt; source.read(&mut rest), Ok(2));
    assert_eq!(rt; source.read(&mut rest), Ok(1));
    assert_eq!(rt; source.read(&mut rest), Ok(0));

    let mut sink = MemSink::new(alloc, 6, 2, vec![in alloc; 2]?)?;
    assert_eq!(rt; write_whole(&mut sink, b"abc"), Err(Failed));
    assert_eq!(rt; write_whole(&mut sink, b"de"), Ok(()));
    assert_eq!(rt; write_whole(&mut sink, b"fgh"), Err(Failed));
    assert_eq!(rt; sink.bytes(), b"abdefg".as_slice());

    let mut narrow = MemSink::new(alloc, 1, 1, Vec::new(alloc))?;
    assert_eq!(rt; narrow.write(b"xy"), Ok(1));
    assert_eq!(rt; narrow.write(b"y"), Err(Failed));
    Ok(())
}

#[test]
fn words_are_kept(rt: HostRuntime) -> Result<(), Fail> {
    let alloc = rt.alloc();
    assert!(rt; Words::new(Vec::new(alloc)).as_slice().is_empty());
    let words = Words::new(vec![in alloc; String::new(alloc)]?);
    assert_eq!(rt; words.as_slice().len(), 1);
    assert_eq!(rt; words.as_slice()[0].len(), 0);
    Ok(())
}

/// The bytes of a file reach the caller, and one that can't be opened fails.
#[test]
fn the_real_source_reads_a_file(rt: HostRuntime) -> Result<(), Fail> {
    fs::write(&rt, "cachesolve_source_test", "abc")?;
    let mut source = StdSource::new(&rt);
    assert!(rt; source.begin(Some("cachesolve_source_test")).is_ok());
    let mut buf = [0u8; 4];
    assert_eq!(rt; source.read(&mut buf), Ok(3));
    assert_eq!(rt; buf, *b"abc\0");
    fs::remove_file(&rt, "cachesolve_source_test")?;
    assert!(rt; source.begin(Some("cachesolve_source_test")).is_err());
    Ok(())
}

/// The bytes reach the writer, and a write that takes none fails.
#[test]
fn the_real_sink_writes(rt: HostRuntime) -> Result<(), Fail> {
    let alloc = rt.alloc();
    let mut room = [0u8; 3];
    let mut sink = StdSink::new(room.as_mut_slice());
    assert!(rt; write_whole(&mut sink, b"abc").is_ok());
    assert!(rt; sink.write(b"d").is_err());
    assert_eq!(rt; room.as_slice(), b"abc".as_slice());
    Ok(())
}
