//! A folder of the file system.

ghost use Rattle.std.specs.Prelude.{◌≡◌, ◌+◌, ◌≤◌, IfOk, OnErr, drop, length};

use crate::count::saturating_increment;
use crate::shelf::{Found, Shelf, ShelfFail};
use std::alloc::Global;
use std::io::{ErrorKind, Read, Write};
use std::path::Path;
use std::rt::Files;
use std::{fs, io, mem};

const BLOCK: usize = 16384;

/// The chosen file.
#[derive(Drop)]
pub(crate) enum ChosenFile<F> {
    Nothing,
    Reading { name: String, place: u64, file: F },
    Writing { name: String, file: F },
}

/// A folder of the file system. A relative name is taken from the folder, and an absolute one as it
/// stands. A file that isn't there is missing, and anything else that goes wrong is a fault; so are
/// a folder in a file's place, want of memory for a path, and a byte past the first 2^64 - 1.
///
/// It doesn't tell the files, so that no clause speaks of their bytes.
#[derive(Drop)]
pub struct DirShelf<'a, R: Files> {
    rt: &'a R,
    alloc: Global,
    folder: &'a str,
    chosen: ChosenFile<R::File>,
    read_faults: u64,
    write_faults: u64,
    misses: u64,
    faulted: Option<String>,
}

impl<'a, R: Files> DirShelf<'a, R> {
    ghost use Rattle.std.specs.Prelude.{None};
    ghost use Rattle.bl_outer.specs.Shelf.{Nothing, Reading, Writing};
    ghost use Rattle.bl_outer.specs.DirShelf.{mode_of};

    /// The shelf of a folder, of which the empty text is the current one.
    pub fn new(rt: &'a R, alloc: Global, folder: &'a str) -> DirShelf<'a, R>
        ensures { ⟦<DirShelf<'a, R> as Shelf>⟧.state result ≡ record {
          contents = None;
          mode = Nothing;
          read_faults = 0;
          write_faults = 0;
          misses = 0;
          faulted = None;
        } }
    {
        DirShelf {
            rt,
            alloc,
            folder,
            chosen: ChosenFile::Nothing,
            read_faults: 0,
            write_faults: 0,
            misses: 0,
            faulted: None,
        }
    }

    fn open_to_read(&self, name: &str) -> io::Result<ChosenFile<R::File>>
        ensures { IfOk result (λ chosen. mode_of chosen ≡ Reading name.now 0) }
    {
        let path = Path::new(self.folder).join(self.alloc, name)?;
        Ok(ChosenFile::Reading {
            name: String::from_str(self.alloc, name)?,
            place: 0,
            file: fs::open(self.rt, path.as_path())?,
        })
    }

    fn open_to_write(&self, name: &str) -> io::Result<ChosenFile<R::File>>
        ensures { IfOk result (λ chosen. mode_of chosen ≡ Writing name.now) }
    {
        let path = Path::new(self.folder).join(self.alloc, name)?;
        Ok(ChosenFile::Writing {
            name: String::from_str(self.alloc, name)?,
            file: fs::create(self.rt, path.as_path())?,
        })
    }
}

impl<'a, R: Files> Shelf for DirShelf<'a, R> {
    ghost use Rattle.std.specs.Prelude.{None, string_bytes};
    ghost use Rattle.std.specs.Option.{option_map};
    ghost use Rattle.bl_outer.specs.DirShelf.{mode_of};

    ghost state = { λ shelf. record {
      contents = None;
      mode = mode_of shelf.chosen;
      read_faults = shelf.read_faults;
      write_faults = shelf.write_faults;
      misses = shelf.misses;
      faulted = option_map string_bytes shelf.faulted;
    } };

    fn find(&mut self, name: &str) -> Result<Found, ShelfFail> {
        self.chosen = ChosenFile::Nothing;
        match self.open_to_read(name) {
            Ok(chosen) => {
                self.chosen = chosen;
                Ok(Found::Here)
            }
            Err(error) if error.kind() == ErrorKind::NotFound => {
                self.misses = saturating_increment(self.misses);
                Ok(Found::Missing)
            }
            Err(_) => {
                self.read_faults = saturating_increment(self.read_faults);
                self.faulted = String::from_str(self.alloc, name).ok();
                Err(ShelfFail)
            }
        }
    }

    fn next(&mut self, into: &mut [u8]) -> Result<usize, ShelfFail> {
        let chosen = mem::replace(&mut self.chosen, ChosenFile::Nothing);
        let ChosenFile::Reading {
            name,
            mut place,
            mut file,
        } = chosen
        else {
            unreachable!()
        };
        match read_block(&mut file, &mut place, into) {
            Ok(given) => {
                self.chosen = ChosenFile::Reading { name, place, file };
                Ok(given)
            }
            Err(fail) => {
                self.read_faults = saturating_increment(self.read_faults);
                self.faulted = Some(name);
                Err(fail)
            }
        }
    }

    fn begin(&mut self, name: &str) -> Result<(), ShelfFail> {
        self.chosen = ChosenFile::Nothing;
        match self.open_to_write(name) {
            Ok(chosen) => {
                self.chosen = chosen;
                Ok(())
            }
            Err(_) => {
                self.write_faults = saturating_increment(self.write_faults);
                Err(ShelfFail)
            }
        }
    }

    fn append(&mut self, piece: &[u8]) -> Result<(), ShelfFail> {
        let ChosenFile::Writing { file, .. } = &mut self.chosen else {
            unreachable!()
        };
        if file.write_all(piece).is_err() {
            self.write_faults = saturating_increment(self.write_faults);
            return Err(ShelfFail);
        }
        Ok(())
    }

    fn finish(&mut self) -> Result<(), ShelfFail> {
        let ChosenFile::Writing { file, .. } = &mut self.chosen else {
            unreachable!()
        };
        let flushed = file.flush();
        self.chosen = ChosenFile::Nothing;
        if flushed.is_err() {
            self.write_faults = saturating_increment(self.write_faults);
            return Err(ShelfFail);
        }
        Ok(())
    }
}

/// Reads into a block and copies what was given, since a reader doesn't say what it leaves past that.
fn read_block<F: Read>(file: &mut F, place: &mut u64, into: &mut [u8]) -> Result<usize, ShelfFail>
    ensures count { IfOk result (λ n. n ≤ length into.old) }
    ensures place { IfOk result (λ n. place.new ≡ place.old + n) }
    ensures rest { IfOk result (λ n. drop n into.new ≡ drop n into.old) }
    ensures err { OnErr result (into.new ≡ into.old) }
{
    let mut block = [0u8; BLOCK];
    let room = into.len().min(BLOCK);
    let Ok(given) = file.read(&mut block[..room]) else {
        return Err(ShelfFail);
    };
    *place = place.checked_add(given as u64).ok_or(ShelfFail)?;
    into[..given].copy_from_slice(&block[..given]);
    Ok(given)
}
