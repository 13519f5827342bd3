use crate::journal::FileJournal;
use crate::shelf::FileShelf;
use crate::sink::FileSink;
use dm_base::{Journal, JournalError, Shelf, ShelfError, Sink, SinkError};
use std::io::Write;
use std::test::Fail;
use std::{fs, io};

#[test]
fn shelf_reads_the_files_of_the_folder(rt: HostRuntime) -> Result<(), Fail> {
    let alloc = rt.alloc();
    fs::write(&rt, "a.sql", "12345")?;
    let mut shelf = FileShelf::new(&rt);

    assert_eq!(rt;
        shelf.read_file(alloc, "a.sql", 9)?.as_slice(),
        b"12345".as_slice()
    );
    assert_eq!(rt;
        shelf.read_file(alloc, "a.sql", 2)?.as_slice(),
        b"123".as_slice()
    );
    assert!(rt; matches!(shelf.read_file(alloc, "b.sql", 9), Err(ShelfError::Missing)));
    // The folder itself can be opened, and not read.
    assert!(rt; matches!(shelf.read_file(alloc, ".", 9), Err(ShelfError::Failed)));
    Ok(fs::remove_file(&rt, "a.sql")?)
}

#[test]
fn journal_outlasts_the_program(rt: HostRuntime) -> Result<(), Fail> {
    let alloc = rt.alloc();
    let mut journal = FileJournal::new(&rt);
    assert_eq!(rt; journal.load(alloc, 9)?.as_slice(), b"".as_slice());
    journal.append(b"hello ")?;
    journal.append(b"there")?;

    let mut journal = FileJournal::new(&rt);
    assert_eq!(rt;
        journal.load(alloc, 20)?.as_slice(),
        b"hello there".as_slice()
    );
    journal.cut(5)?;
    assert_eq!(rt; journal.load(alloc, 20)?.as_slice(), b"hello".as_slice());
    assert_eq!(rt; journal.load(alloc, 0)?.as_slice(), b"h".as_slice());
    assert_eq!(rt; journal.cut(6), Err(JournalError::Failed));
    assert_eq!(rt;
        fs::read(&rt, "dm.journal")?.as_slice(),
        b"hello".as_slice()
    );
    Ok(fs::remove_file(&rt, "dm.journal")?)
}

/// Takes two bytes at a time, and no more than it has room for.
#[derive(Drop)]
struct Narrow {
    room: usize,
}

impl Write for Narrow {
    fn write(&mut self, bytes: &[u8]) -> io::Result<usize> {
        let count = bytes.len().min(2).min(self.room);
        self.room -= count;
        Ok(count)
    }

    fn flush(&mut self) -> io::Result<()> {
        Ok(())
    }
}

#[test]
fn sink_writes_all_or_fails(rt: HostRuntime) {
    let mut sink = FileSink::new(Narrow { room: 8 });
    assert_eq!(rt; sink.put(b"12345"), Ok(()));
    assert_eq!(rt; sink.put(b""), Ok(()));
    assert_eq!(rt; sink.put(b"6789"), Err(SinkError::Failed));
    assert_eq!(rt; sink.put(b""), Ok(()));
}
