ghost use Rattle.std.specs.Prelude.{◌≡◌, ◌+◌, ◌≤◌, ◌↔◌, Some, vec_len, position, bytes_eq, string_bytes, IfOk, IsSome, IsErrOf, IsTrue};
ghost use Rattle.std.specs.Option.{option_copied};
ghost use Rattle.dm_base.specs.Outside.{ReadsFile};
ghost use Rattle.dm_base.specs.Memory.{is_to_fail, file_of, shelf_after};

use crate::memory::calls::Calls;
use crate::memory::front::front;
use crate::{Shelf, ShelfError};
use std::alloc::Global;
use std::marker::Model;

/// Files that are kept in memory.
#[derive(Debug, Drop)]
pub struct MemoryShelf {
    names: Vec<String>,
    contents: Vec<Vec<u8>>,
    calls: Calls,
    misses: u64,
}

impl Model for MemoryShelf {
    ghost use Rattle.dm_base.specs.Memory.{ShelfContent};

    ghost Value = { ShelfContent };

    ghost view = { λ shelf. record {
      names = shelf.names.items;
      contents = shelf.contents.items;
      failing = shelf.calls.failing.items;
      calls = shelf.calls.made;
      faults = shelf.calls.faults;
      misses = shelf.misses;
    } };
}

impl MemoryShelf {
    /// A shelf of the files with these names, each with the bytes at the same place of `contents`: of equal names the
    /// first is the file's. Calls fail if their numbers are in `failing`, counted from 1.
    pub fn new(names: Vec<String>, contents: Vec<Vec<u8>>, failing: Vec<u64>) -> MemoryShelf
        requires { vec_len names ≡ vec_len contents }
        ensures { result ≡ record {
          names = names.items;
          contents = contents.items;
          failing = failing.items;
          calls = 0;
          faults = 0;
          misses = 0;
        } }
    {
        MemoryShelf {
            names,
            contents,
            calls: Calls::new(failing),
            misses: 0,
        }
    }
}

impl Shelf for MemoryShelf {
    ghost use Rattle.std.specs.Prelude.{Some};
    ghost use Rattle.dm_base.specs.Memory.{file_of};

    ghost files = { λ shelf. Some (file_of shelf.names shelf.contents) };

    ghost faults = { λ shelf. shelf.faults };

    ghost misses = { λ shelf. shelf.misses };

    /// Fails where the call's number is in `failing`, and nowhere else.
    fn read_file(&mut self, alloc: Global, name: &str, most: u32) -> Result<Vec<u8>, ShelfError>
        ensures after { self.new ≡ shelf_after result self.old }
        ensures read { ReadsFile (Some (file_of self.old.names self.old.contents)) name.now most result }
        ensures within { IfOk result (λ front. vec_len front ≤ most + 1) }

        ensures failing { IsErrOf result ShelfError.Failed ↔ IsTrue (is_to_fail self.old.failing self.old.calls) }
        ensures memory { IsErrOf result ShelfError.Memory → IsSome (file_of self.old.names self.old.contents name.now) }

        ensures faults { self.old.faults ≤ self.new.faults }
        ensures misses { self.old.misses ≤ self.new.misses }
    {
        if self.calls.count_call() {
            self.calls.count_fault();
            return Err(ShelfError::Failed);
        }
        let Some(bytes) = find_file(&self.names, &self.contents, name) else {
            self.misses = self.misses.saturating_add(1);
            return Err(ShelfError::Missing);
        };
        Ok(front(alloc, bytes, most)?)
    }
}

/// The bytes of the first file of this name.
fn find_file<'a>(names: &[String], contents: &'a [Vec<u8>], name: &str) -> Option<&'a [u8]>
    ensures { option_copied result ≡ file_of names.now contents.now name.now }
{
    let place = place_of(names, name)?;
    contents.get(place).map(|bytes| bytes.as_slice())
}

/// The place of the first of the names that is this one.
fn place_of(names: &[String], name: &str) -> Option<usize>
    ensures { result ≡ position (λ file. bytes_eq (string_bytes file) name.now) names.now }
{
    names.iter().position(|file| file.as_str() == name)
}
