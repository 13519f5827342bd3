use crate::{
    Cursor, Journal, JournalError, MemoryJournal, MemoryShelf, MemorySink, Shelf, ShelfError, Sink,
    SinkError,
};
use std::alloc::Global;
use std::test::Fail;

fn read<S: Shelf>(
    shelf: &mut S,
    alloc: Global,
    name: &str,
    most: u32,
) -> Result<Vec<u8>, ShelfError> {
    shelf.read_file(alloc, name, most)
}

fn load<J: Journal>(journal: &mut J, alloc: Global, most: u32) -> Result<Vec<u8>, JournalError> {
    journal.load(alloc, most)
}

fn append<J: Journal>(journal: &mut J, piece: &[u8]) -> Result<(), JournalError> {
    journal.append(piece)
}

fn put<S: Sink>(sink: &mut S, bytes: &[u8]) -> Result<(), SinkError> {
    sink.put(bytes)
}

#[test]
fn shelf_reads_the_front_of_the_first_file_of_a_name(rt: HostRuntime) -> Result<(), Fail> {
    let alloc = rt.alloc();
    let mut names = Vec::new(alloc);
    names.push(String::from_str(alloc, "a")?)?;
    names.push(String::from_str(alloc, "b")?)?;
    names.push(String::from_str(alloc, "a")?)?;
    let mut contents = Vec::new(alloc);
    contents.push(b"12345".to_vec(alloc)?)?;
    contents.push(b"".to_vec(alloc)?)?;
    contents.push(b"other".to_vec(alloc)?)?;
    assert_eq!(rt; names.len(), contents.len());
    let mut shelf = MemoryShelf::new(names, contents, [3, 5].to_vec(alloc)?);

    assert_eq!(rt;
        read(&mut shelf, alloc, "a", 9)?.as_slice(),
        b"12345".as_slice()
    );
    assert_eq!(rt;
        read(&mut shelf, alloc, "a", 2)?.as_slice(),
        b"123".as_slice()
    );
    assert!(rt; matches!(read(&mut shelf, alloc, "a", 9), Err(ShelfError::Failed)));
    assert!(rt; matches!(read(&mut shelf, alloc, "c", 9), Err(ShelfError::Missing)));
    assert!(rt; matches!(read(&mut shelf, alloc, "c", 9), Err(ShelfError::Failed)));
    assert_eq!(rt; read(&mut shelf, alloc, "b", 0)?.as_slice(), b"".as_slice());
    Ok(())
}

#[test]
fn sink_adds_nothing_where_it_fails(rt: HostRuntime) -> Result<(), Fail> {
    let alloc = rt.alloc();
    let mut sink = MemorySink::new(b"ab".to_vec(alloc)?, [2].to_vec(alloc)?);

    put(&mut sink, b"cd")?;
    assert_eq!(rt; sink.bytes(), b"abcd".as_slice());
    assert_eq!(rt; put(&mut sink, b"ef"), Err(SinkError::Failed));
    assert_eq!(rt; sink.bytes(), b"abcd".as_slice());
    put(&mut sink, b"g")?;
    assert_eq!(rt; sink.bytes(), b"abcdg".as_slice());
    Ok(())
}

#[test]
fn journal_keeps_what_it_is_told_to(rt: HostRuntime) -> Result<(), Fail> {
    let alloc = rt.alloc();
    let failing = [2, 4, 6, 8].to_vec(alloc)?;
    let mut journal = MemoryJournal::new(b"hello".to_vec(alloc)?, failing, [2, 9].to_vec(alloc)?);

    assert_eq!(rt; load(&mut journal, alloc, 2)?.as_slice(), b"hel".as_slice());
    assert_eq!(rt; append(&mut journal, b"123"), Err(JournalError::Failed));
    assert_eq!(rt; journal.bytes(), b"hello12".as_slice());
    append(&mut journal, b"x")?;
    assert_eq!(rt; append(&mut journal, b"yz"), Err(JournalError::Failed));
    assert_eq!(rt; journal.bytes(), b"hello12xyz".as_slice());

    assert!(rt; journal.bytes().len() >= 6);
    journal.cut(6)?;
    assert_eq!(rt; journal.bytes(), b"hello1".as_slice());
    assert!(rt; journal.bytes().len() >= 2);
    assert_eq!(rt; journal.cut(2), Err(JournalError::Failed));
    assert_eq!(rt;
        load(&mut journal, alloc, 9)?.as_slice(),
        b"hello1".as_slice()
    );

    // The list of what failing appends keep is at its end.
    assert_eq!(rt; append(&mut journal, b"w"), Err(JournalError::Failed));
    assert_eq!(rt; journal.bytes(), b"hello1".as_slice());
    Ok(())
}

#[test]
fn cursor_reads_numbers(rt: HostRuntime) -> Result<(), Fail> {
    let mut cursor = Cursor::new(b"\x01\x02\x01\x02\x03xyz");
    assert_eq!(rt; cursor.le(2), Some(513));
    assert_eq!(rt; cursor.be(3), Some(66_051));
    assert_eq!(rt; cursor.le(4), None);
    assert_eq!(rt; cursor.place(), 5);
    assert_eq!(rt; cursor.take(2), Some(b"xy".as_slice()));
    assert_eq!(rt; cursor.left(), b"z".as_slice());
    Ok(())
}

fn lenenc(bytes: &[u8]) -> Option<u64> {
    Cursor::new(bytes).lenenc()
}

#[test]
fn cursor_reads_encoded_lengths(rt: HostRuntime) -> Result<(), Fail> {
    assert_eq!(rt; lenenc(b"\xfa"), Some(250));
    assert_eq!(rt; lenenc(b"\xfc\xfb\0"), Some(251));
    assert_eq!(rt; lenenc(b"\xfd\0\0\x01"), Some(65_536));
    assert_eq!(rt; lenenc(b"\xfe\0\0\0\0\0\0\0\x01"), Some(1 << 56));
    assert_eq!(rt; lenenc(b"\xfb"), None);
    assert_eq!(rt; lenenc(b"\xff"), None);
    Ok(())
}
