//! What no clause says: that calls succeed with ample memory, and what files and writers of the system give.
use alp_io::{
    DirShelf, MemShelf, MemSink, NullSink, PutFault, ReadFault, Shelf, Sink, StdSink, read_within,
    write_all,
};
use std::io::Read;
use std::test::Fail;
use std::{fs, io};

#[test]
fn fails_at_listed_writes_and_without_room(rt: HostRuntime) -> Result<(), Fail> {
    let failing = vec![in rt.alloc(); 1u64]?;
    let mut sink = MemSink::new(rt.alloc(), 70, failing)?;
    assert_eq!(rt; sink.write(&[b'a'; 66])?, 64);
    assert!(rt; sink.write(b"b").is_err());
    assert_eq!(rt; sink.write(b"0123456789")?, 6);
    assert!(rt; sink.write(b"c").is_err());
    assert_eq!(rt; sink.write(b"")?, 0);
    assert_eq!(rt; sink.bytes().len(), 70);
    write_all(&mut NullSink, b"lost")?;
    Ok(())
}

#[test]
fn keeps_files_in_memory(rt: HostRuntime) -> Result<(), Fail> {
    let alloc = rt.alloc();
    let failing_reads = vec![in rt.alloc(); 1u64]?;
    let failing_puts = vec![in rt.alloc(); 2u64]?;
    let mut shelf = MemShelf::new(Vec::new(rt.alloc()), failing_reads, failing_puts);
    shelf.put(alloc, "a", b"old")?;
    shelf.put(alloc, "b", b"other")?;
    assert_eq!(rt; shelf.put(alloc, "a", b"lost"), Err(PutFault::Failed));
    shelf.put(alloc, "a", b"new")?;
    let mut into = Vec::new(rt.alloc());
    shelf.read(alloc, "b", 5, &mut into)?;
    assert_eq!(rt; into.as_slice(), b"other".as_slice());
    let mut into = Vec::new(rt.alloc());
    assert_eq!(rt;
        shelf.read(alloc, "b", 5, &mut into),
        Err(ReadFault::Failed)
    );
    let mut into = Vec::new(rt.alloc());
    assert_eq!(rt;
        shelf.read(alloc, "b", 4, &mut into),
        Err(ReadFault::TooLong)
    );
    let mut into = Vec::new(rt.alloc());
    assert_eq!(rt;
        shelf.read(alloc, "c", 5, &mut into),
        Err(ReadFault::Missing)
    );
    assert_eq!(rt; shelf.file("a"), Some(b"new".as_slice()));
    Ok(())
}

#[test]
fn reads_files_of_the_system(rt: HostRuntime) -> Result<(), Fail> {
    let alloc = rt.alloc();
    let name = "alp_io_shelf_test.txt";
    let mut shelf = DirShelf::new(rt);
    shelf.put(alloc, name, b"an old file")?;
    shelf.put(alloc, name, b"12345")?;
    let mut into = Vec::new(rt.alloc());
    shelf.read(alloc, name, 5, &mut into)?;
    assert_eq!(rt; into.as_slice(), b"12345".as_slice());
    let mut into = Vec::new(rt.alloc());
    assert_eq!(rt;
        shelf.read(alloc, name, 4, &mut into),
        Err(ReadFault::TooLong)
    );
    fs::remove_file(&rt, name)?;
    let mut into = Vec::new(rt.alloc());
    assert_eq!(rt;
        shelf.read(alloc, name, 5, &mut into),
        Err(ReadFault::Missing)
    );
    let mut into = Vec::new(rt.alloc());
    assert_eq!(rt;
        shelf.read(alloc, ".", 5, &mut into),
        Err(ReadFault::Failed)
    );
    assert_eq!(rt;
        shelf.put(alloc, "no_such_folder/file", b""),
        Err(PutFault::Failed)
    );
    Ok(())
}

// A reader whose reads are short.
#[derive(Drop)]
struct ThreeAtATime<'a> {
    rest: &'a [u8],
}

impl<'a> Read for ThreeAtATime<'a> {
    fn read(&mut self, buf: &mut [u8]) -> io::Result<usize> {
        let most = buf.len().min(3);
        self.rest.read(&mut buf[..most])
    }
}

#[test]
fn takes_a_byte_past_the_limit_at_most(rt: HostRuntime) -> Result<(), Fail> {
    let mut file = ThreeAtATime {
        rest: b"0123456789",
    };
    let mut into = Vec::new(rt.alloc());
    assert_eq!(rt;
        read_within(&mut file, 4, &mut into),
        Err(ReadFault::TooLong)
    );
    assert_eq!(rt; file.rest, b"56789".as_slice());
    let mut into = Vec::new(rt.alloc());
    read_within(&mut file, 5, &mut into)?;
    assert_eq!(rt; into.as_slice(), b"56789".as_slice());
    Ok(())
}

#[test]
fn writes_to_a_writer_of_the_library(rt: HostRuntime) -> Result<(), Fail> {
    let mut sink = StdSink::new(Vec::new(rt.alloc()));
    write_all(&mut sink, b"out")?;
    assert_eq!(rt; sink.inner.as_slice(), b"out".as_slice());
    let mut full = [0u8; 2];
    let mut sink = StdSink::new(full.as_mut_slice());
    assert!(rt; write_all(&mut sink, b"out").is_err());
    assert_eq!(rt; sink.faults, 1);
    Ok(())
}
