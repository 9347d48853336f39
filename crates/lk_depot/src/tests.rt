// Each call that takes memory, once with ample memory, and the calls that a list makes fail.
use crate::{Depot, Failed, FileKind, LoadAllStop, MemDepot, MemSink, load_all, put_all, say_all};
use std::alloc::{AllocError, Global};
use std::test::Fail;

fn file(alloc: Global, name: &str, bytes: &[u8]) -> Result<(String, Vec<u8>), AllocError> {
    Ok((
        String::from_str(alloc, name)?,
        Vec::from_slice(alloc, bytes)?,
    ))
}

fn three_names(alloc: Global) -> Result<Vec<String>, AllocError> {
    Ok(vec![in alloc;
        String::from_str(alloc, "b.o")?,
        String::from_str(alloc, "a.o")?,
        String::from_str(alloc, "b.o")?,
    ]?)
}

fn two_files(alloc: Global) -> Result<Vec<(String, Vec<u8>)>, AllocError> {
    Ok(vec![in alloc;
        file(alloc, "a.o", b"first")?,
        file(alloc, "b.o", b"second")?,
    ]?)
}

#[test]
fn files_are_loaded_in_order(rt: HostRuntime) -> Result<(), Fail> {
    let alloc = rt.alloc();
    let mut depot = MemDepot::new(alloc, two_files(alloc)?, Vec::new(alloc), 4, 16)?;
    let names = three_names(alloc)?;
    let Ok(contents) = load_all(alloc, &mut depot, names.as_slice()) else {
        panic!(rt; "the files are there")
    };
    assert_eq!(rt; contents.len(), 3);
    assert_eq!(rt; contents[0].as_slice(), b"second".as_slice());
    assert_eq!(rt; contents[1].as_slice(), b"first".as_slice());
    assert_eq!(rt; contents[2].as_slice(), b"second".as_slice());
    assert_eq!(rt; depot.calls(), 3);
    // Workers may share the files, which in memory they do not.
    let Ok(shared) = depot.load_files(&rt, alloc, names.as_slice(), 4) else {
        panic!(rt; "the files are there")
    };
    assert_eq!(rt; shared, contents);
    assert_eq!(rt; depot.calls(), 6);
    Ok(())
}

#[test]
fn the_first_stop_ends_the_loads(rt: HostRuntime) -> Result<(), Fail> {
    let alloc = rt.alloc();
    let names = three_names(alloc)?;
    let mut unreadable = MemDepot::new(alloc, two_files(alloc)?, vec![in alloc; 1]?, 4, 16)?;
    let failed = load_all(alloc, &mut unreadable, names.as_slice());
    assert_eq!(rt; failed.err(), Some(LoadAllStop::Failed { index: 1 }));
    assert_eq!(rt; unreadable.faults(), 1);
    assert_eq!(rt; unreadable.unread().len(), 1);
    assert_eq!(rt; unreadable.unread()[0].as_str(), "a.o");
    let second = vec![in alloc; file(alloc, "b.o", b"second")?]?;
    let mut lacking = MemDepot::new(alloc, second, Vec::new(alloc), 4, 16)?;
    let absent = load_all(alloc, &mut lacking, names.as_slice());
    assert_eq!(rt; absent.err(), Some(LoadAllStop::Absent { index: 1 }));
    let shared = lacking.load_files(&rt, alloc, names.as_slice(), 4);
    assert_eq!(rt; shared.err(), Some(LoadAllStop::Absent { index: 1 }));
    assert_eq!(rt; lacking.faults(), 0);
    Ok(())
}

#[test]
fn a_file_is_written_piece_by_piece(rt: HostRuntime) -> Result<(), Fail> {
    let alloc = rt.alloc();
    let mut depot = MemDepot::new(alloc, two_files(alloc)?, Vec::new(alloc), 4, 16)?;
    assert_eq!(rt; depot.begin("a.o", FileKind::Executable), Ok(()));
    assert_eq!(rt; put_all(&mut depot, "a.o", b"a longer text"), Ok(()));
    assert_eq!(rt; depot.bytes("a.o"), Some(b"a longer text".as_slice()));
    assert_eq!(rt; depot.bytes("b.o"), Some(b"second".as_slice()));
    assert_eq!(rt; depot.kind("a.o"), Some(FileKind::Executable));
    assert_eq!(rt; depot.calls(), 5);
    assert_eq!(rt; depot.begun(), 1);
    Ok(())
}

#[test]
fn a_fault_in_mid_append_leaves_a_prefix(rt: HostRuntime) -> Result<(), Fail> {
    let alloc = rt.alloc();
    let mut depot = MemDepot::new(alloc, Vec::new(alloc), vec![in alloc; 3]?, 4, 16)?;
    assert_eq!(rt; depot.begin("out", FileKind::Plain), Ok(()));
    assert_eq!(rt; put_all(&mut depot, "out", b"a longer text"), Err(Failed));
    assert_eq!(rt; depot.bytes("out"), Some(b"a longer".as_slice()));
    assert_eq!(rt; depot.faults(), 1);
    assert_eq!(rt; put_all(&mut depot, "out", b" story"), Ok(()));
    assert_eq!(rt; depot.bytes("out"), Some(b"a longer story".as_slice()));
    Ok(())
}

#[test]
fn an_output_has_limits(rt: HostRuntime) -> Result<(), Fail> {
    let alloc = rt.alloc();
    let mut depot = MemDepot::new(alloc, Vec::new(alloc), Vec::new(alloc), 100, 4)?;
    assert_eq!(rt; depot.append("one", b"early"), Err(Failed));
    assert_eq!(rt; depot.begin("one", FileKind::Executable), Ok(()));
    assert_eq!(rt; depot.begin("two", FileKind::Plain), Ok(()));
    assert_eq!(rt; depot.begin("three", FileKind::Plain), Err(Failed));
    assert_eq!(rt; put_all(&mut depot, "two", b"12345"), Err(Failed));
    assert_eq!(rt; depot.bytes("two"), Some(b"1234".as_slice()));
    assert_eq!(rt; depot.bytes("one").map(|bytes| bytes.len()), Some(0));
    assert_eq!(rt; depot.begun(), 3);
    assert_eq!(rt; depot.faults(), 3);
    Ok(())
}

#[test]
fn a_stream_is_written_to_its_room(rt: HostRuntime) -> Result<(), Fail> {
    let alloc = rt.alloc();
    let mut sink = MemSink::new(alloc, vec![in alloc; 1]?, 8)?;
    assert_eq!(rt; say_all(&mut sink, b"one "), Ok(()));
    assert_eq!(rt; say_all(&mut sink, b"lost"), Err(Failed));
    assert_eq!(rt; say_all(&mut sink, b"two three"), Err(Failed));
    assert_eq!(rt; sink.written(), b"one two ".as_slice());
    assert_eq!(rt; sink.faults(), 2);
    assert_eq!(rt; sink.calls(), 4);
    Ok(())
}
