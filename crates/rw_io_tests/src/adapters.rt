//! What no clause says: that calls succeed with ample memory, and what the adapters do over std.

use rw_io::{
    Failed, FileError, Files, MemFiles, MemSink, MemSource, NullSink, OsFiles, OsSink, OsSource,
    Sink, Source, SureFiles, SureSource, WriteFault, write_all,
};
use std::alloc::{AllocError, Global};
use std::io::{Error, ErrorKind, Read, Write};
use std::process::Abort;
use std::test::Fail;
use std::{fs, io};

/// A device whose reads and flushes fail.
#[derive(Drop)]
struct Broken;

impl Read for Broken {
    fn read(&mut self, _buf: &mut [u8]) -> io::Result<usize> {
        Err(Error::from(ErrorKind::BrokenPipe))
    }
}

impl Write for Broken {
    fn write(&mut self, buf: &[u8]) -> io::Result<usize> {
        Ok(buf.len())
    }

    fn flush(&mut self) -> io::Result<()> {
        Err(Error::from(ErrorKind::BrokenPipe))
    }
}

/// Reads with a buffer of two bytes; `None` is a call that fails.
fn assert_reads<S: Source>(rt: &impl Abort, source: &mut S, pieces: &[Option<&str>]) {
    for piece in pieces {
        let mut buf = [0u8; 2];
        let answer = source.read(&mut buf);
        match piece {
            Some(bytes) => {
                assert_eq!(rt; answer, Ok(bytes.len()), "before {bytes}");
                assert!(rt; buf.starts_with(bytes.as_bytes()), "before {bytes}");
            }
            None => assert_eq!(rt; answer, Err(Failed)),
        }
    }
}

/// Writes pieces; `None` is a call that fails.
fn assert_writes<S: Sink>(rt: &impl Abort, sink: &mut S, pieces: &[(&str, Option<usize>)]) {
    for (piece, taken) in pieces {
        assert_eq!(rt; sink.write(piece.as_bytes()).ok(), *taken, "at {piece}");
    }
}

/// Reads files with a limit of three bytes.
fn assert_files<F: Files>(
    rt: &impl Abort,
    alloc: Global,
    files: &mut F,
    calls: &[(&str, Result<&str, FileError>)],
) {
    for (name, want) in calls {
        match (files.read_all(alloc, name, 3), want) {
            (Ok(bytes), Ok(text)) => assert_eq!(rt; bytes.as_slice(), text.as_bytes(), "at {name}"),
            (Err(error), Err(wanted)) => assert_eq!(rt; error, *wanted, "at {name}"),
            _ => panic!(rt; "another answer at {name}"),
        }
    }
}

/// Two files of one name, of which the first counts, and one that is longer than three bytes.
fn some_files(alloc: Global) -> Result<Vec<(String, Vec<u8>)>, AllocError> {
    let mut files = Vec::new(alloc);
    for (name, text) in [("a", "abc"), ("a", "x"), ("long", "abcd")] {
        files.push((
            String::from_str(alloc, name)?,
            text.as_bytes().to_vec(alloc)?,
        ))?;
    }
    Ok(files)
}

#[test]
fn memory_files_fail_where_listed_or_absent(rt: HostRuntime) -> Result<(), Fail> {
    let mut files = MemFiles::new(some_files(rt.alloc())?, vec![in rt.alloc(); 2]?);
    let calls = [
        ("a", Ok("abc")),
        ("a", Err(FileError::Failed)),
        ("none", Err(FileError::Failed)),
        ("long", Err(FileError::TooLarge(4))),
        ("a", Ok("abc")),
    ];
    assert_files(&rt, rt.alloc(), &mut files, &calls);
    Ok(())
}

#[test]
fn sure_files_are_empty_where_absent(rt: HostRuntime) -> Result<(), Fail> {
    let mut files = SureFiles::new(some_files(rt.alloc())?);
    let calls = [
        ("a", Ok("abc")),
        ("none", Ok("")),
        ("long", Err(FileError::TooLarge(4))),
    ];
    assert_files(&rt, rt.alloc(), &mut files, &calls);
    Ok(())
}

#[test]
fn system_files_are_read_up_to_the_limit(rt: HostRuntime) -> Result<(), Fail> {
    fs::write(&rt, "rw_io_short", "abc")?;
    fs::write(&rt, "rw_io_long", "abcd")?;
    let calls = [
        ("rw_io_short", Ok("abc")),
        ("rw_io_long", Err(FileError::TooLarge(4))),
        ("rw_io_none", Err(FileError::Failed)),
    ];
    assert_files(&rt, rt.alloc(), &mut OsFiles::new(&rt), &calls);
    fs::remove_file(&rt, "rw_io_short")?;
    fs::remove_file(&rt, "rw_io_long")?;
    Ok(())
}

#[test]
fn memory_source_fails_where_listed(rt: HostRuntime) -> Result<(), Fail> {
    let mut source = MemSource::new(
        vec![in rt.alloc(); b'a', b'b', b'c']?,
        vec![in rt.alloc(); 2]?,
    );
    assert_reads(&rt, &mut source, &[Some("ab"), None, Some("c"), Some("")]);
    Ok(())
}

#[test]
fn sure_source_gives_all(rt: HostRuntime) -> Result<(), Fail> {
    let mut source = SureSource::new(vec![in rt.alloc(); b'a', b'b', b'c']?);
    assert_reads(&rt, &mut source, &[Some("ab"), Some("c"), Some("")]);
    Ok(())
}

#[test]
fn system_source_reads_or_fails(rt: HostRuntime) {
    let mut source = OsSource::new(b"abc".as_slice());
    assert_reads(&rt, &mut source, &[Some("ab"), Some("c"), Some("")]);
    assert_reads(&rt, &mut OsSource::new(Broken), &[None]);
}

#[test]
fn memory_sink_fails_where_listed(rt: HostRuntime) -> Result<(), Fail> {
    let mut sink = MemSink::new(rt.alloc(), vec![in rt.alloc(); 2]?);
    let pieces = [("ab", Some(2)), ("x", None), ("c", Some(1)), ("", Some(0))];
    assert_writes(&rt, &mut sink, &pieces);
    assert_eq!(rt; sink.bytes(), b"abc".as_slice());
    assert_eq!(rt; sink.starved(), 0);
    Ok(())
}

#[test]
fn null_sink_takes_all(rt: HostRuntime) {
    assert_writes(&rt, &mut NullSink::new(), &[("ab", Some(2)), ("", Some(0))]);
}

#[test]
fn system_sink_fails_where_nothing_is_taken_or_flushed(rt: HostRuntime) {
    let mut room = [0u8; 3];
    let mut sink = OsSink::new(room.as_mut_slice());
    let pieces = [("ab", Some(2)), ("cd", Some(1)), ("d", None), ("", Some(0))];
    assert_writes(&rt, &mut sink, &pieces);
    assert_eq!(rt; room, *b"abc");
    assert_writes(&rt, &mut OsSink::new(Broken), &[("a", None)]);
}

#[test]
fn a_whole_text_is_written_up_to_the_failure(rt: HostRuntime) {
    let mut room = [0u8; 3];
    let mut sink = OsSink::new(room.as_mut_slice());
    assert_eq!(rt; write_all(&mut sink, b"abcd"), Err(WriteFault { done: 3 }));
    assert_eq!(rt; room, *b"abc");
}
