//! Devices, over readers and writers that fail.
use portal_base::memory::MemorySink;
use portal_base::outside::{Failed, Sink, Source};
use portal_base::seq::Seq;
use portal_base::std_adapters::{StdSink, StdSource};
use std::alloc::{AllocError, Global};
use std::io;
use std::io::{ErrorKind, Read, Write};

#[derive(Drop)]
struct Broken;

impl Read for Broken {
    fn read(&mut self, _into: &mut [u8]) -> io::Result<usize> {
        Err(io::Error::from(ErrorKind::Other))
    }
}

impl Write for Broken {
    fn write(&mut self, _piece: &[u8]) -> io::Result<usize> {
        Err(io::Error::from(ErrorKind::Other))
    }

    fn flush(&mut self) -> io::Result<()> {
        Ok(())
    }
}

fn numbers(alloc: Global, items: &[u64]) -> Result<Seq<u64>, AllocError> {
    Ok(Seq::from(items.to_vec(alloc)?))
}

#[test]
fn a_memory_sink_takes_what_fits(rt: HostRuntime) -> Result<(), AllocError> {
    let alloc = rt.alloc();
    let mut sink = MemorySink::new(alloc, 5, numbers(alloc, &[2])?)?;
    assert_eq!(rt; sink.write(b"abc"), Ok(3));
    assert_eq!(rt; sink.write(b"def"), Err(Failed));
    assert_eq!(rt; sink.write(b"def"), Ok(2));
    assert_eq!(rt; sink.write(b"f"), Err(Failed));
    assert_eq!(rt; sink.taken(), "abcde".as_bytes());
    Ok(())
}

#[test]
fn std_readers_and_writers_are_adapted(rt: HostRuntime) -> Result<(), AllocError> {
    let alloc = rt.alloc();
    let mut into = [0; 4];
    let mut source = StdSource::new(&b"abcde"[..]);
    assert_eq!(rt; source.read(&mut into), Ok(4));
    assert_eq!(rt; &into, b"abcd");
    assert_eq!(rt; source.read(&mut into), Ok(1));
    assert_eq!(rt; into[0], b'e');
    assert_eq!(rt; source.read(&mut into), Ok(0));
    assert_eq!(rt; StdSource::new(Broken).read(&mut into), Err(Failed));

    let mut bytes = Vec::new(alloc);
    let mut sink = StdSink::new(&mut bytes);
    assert_eq!(rt; sink.write(b"abc"), Ok(3));
    drop(sink);
    assert_eq!(rt; bytes.as_slice(), b"abc".as_slice());
    assert_eq!(rt; StdSink::new(Broken).write(b"abc"), Err(Failed));
    Ok(())
}
