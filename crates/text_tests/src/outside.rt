//! A real file and a real stream. Rows run over files and sinks in memory.

use fta_outside::{DiskFiles, FileError, Files, Sink, SinkFailed, StdSink, write_all};
use plain_values::{Mem, Word};
use std::alloc::Global;
use std::fs;
use std::io::{self, Write};
use std::test::Fail;

fn word(alloc: Global, text: &[u8]) -> Mem<Word> {
    Word::of(Vec::from_slice(alloc, text)?)
}

// A file is written through a sink, and its front and its whole are read.
#[test]
fn file_on_disk(rt: HostRuntime) -> Result<(), Fail> {
    let path = "text_tests_file_on_disk.txt";
    let name = word(rt.alloc(), path.as_bytes())?;
    let mut sink = StdSink::new(fs::create(&rt, path)?);
    let is_written = write_all(&mut sink, b"1 root/e1\nend\n").is_ok();
    assert!(rt; is_written);
    let mut files = DiskFiles::new(&rt);
    let front = files.read(rt.alloc(), &name, 4)?;
    assert!(rt; front.as_slice() == b"1 ro".as_slice());
    let whole = files.read(rt.alloc(), &name, 99)?;
    assert!(rt; whole.as_slice() == b"1 root/e1\nend\n".as_slice());
    fs::remove_file(&rt, path)?;
    Ok(())
}

#[test]
fn no_file_on_disk(rt: HostRuntime) -> Result<(), Fail> {
    let name = word(rt.alloc(), b"text_tests_no_such_file")?;
    let mut files = DiskFiles::new(&rt);
    let is_failed = matches!(files.read(rt.alloc(), &name, 4), Err(FileError::Failed));
    assert!(rt; is_failed);
    Ok(())
}

// A stream that takes nothing.
#[derive(Drop)]
struct Full;

impl Write for Full {
    fn write(&mut self, _piece: &[u8]) -> io::Result<usize> {
        Ok(0)
    }

    fn flush(&mut self) -> io::Result<()> {
        Ok(())
    }
}

#[test]
fn full_stream(rt: HostRuntime) {
    assert!(rt; StdSink::new(Full).write(b"a") == Err(SinkFailed));
    assert!(rt; StdSink::new(Full).write(b"") == Ok(0));
}
