//! Files in memory.

ghost use Rattle.std.specs.Prelude.{◌≡◌, ◌-◌, ◌<◌, ◌≤◌, [], IfOk, OnOk, OnErr, take, drop, length};
ghost use Rattle.std.specs.Option.{option_map};
ghost use Rattle.std.specs.FinMap.{get, insert};

use crate::count::saturating_increment;
use crate::fault_plan::FaultPlan;
use crate::mem_file::{MemFile, append_at, bytes_at, copied_name, place_of, put_file};
use crate::shelf::{Found, Shelf, ShelfFail};
use std::alloc::{AllocError, Global};
use std::marker::Model;

/// The chosen file, by its place among the files.
#[derive(Clone, Copy)]
pub(crate) enum Chosen {
    Nothing,
    Reading { file: usize, place: usize },
    Writing { file: usize },
}

/// Files in memory, which tell what they hold. The calls of the trait that are to fail are told by
/// number. Such an `append` adds the first half of its piece; any other call that fails changes no
/// file. A growth that finds no memory is a write fault too.
#[derive(Drop)]
pub struct MemShelf {
    alloc: Global,
    files: Vec<MemFile>,
    chosen: Chosen,
    read_faults: u64,
    write_faults: u64,
    misses: u64,
    faulted: Option<String>,
    plan: FaultPlan,
}

impl Model for MemShelf {
    ghost use Rattle.bl_outer.specs.MemShelf.{MemShelfState};
    ghost use Rattle.bl_outer.specs.Codes.{shelf_code};

    ghost Value = { MemShelfState };

    ghost coded = { shelf_code };

    ghost use Rattle.std.specs.Prelude.{string_bytes};
    ghost use Rattle.std.specs.Option.{option_map};
    ghost use Rattle.bl_outer.specs.MemFile.{files_of};
    ghost use Rattle.bl_outer.specs.MemShelf.{mode_of, IsInPlace};

    ghost view = { λ a. record {
      files = files_of a.files.items;
      mode = mode_of a.chosen a.files.items;
      read_faults = a.read_faults;
      write_faults = a.write_faults;
      misses = a.misses;
      faulted = option_map string_bytes a.faulted;
      plan = a.plan;
    } };

    ghost invariant = { λ a. IsInPlace a.chosen a.files.items };
}

impl MemShelf {
    ghost use Rattle.std.specs.Prelude.{string_bytes};
    ghost use Rattle.std.specs.Option.{option_map};
    ghost use Rattle.bl_outer.specs.Count as counts;
    ghost use Rattle.bl_outer.specs.MemShelf.{empty_shelf};
    ghost use Rattle.bl_outer.specs.Shelf.{Nothing};

    /// No files. The numbers in `fails` count the calls of the trait from 1.
    pub fn new(alloc: Global, fails: &[u64]) -> Result<MemShelf, AllocError>
        ensures { IfOk result (λ shelf. shelf ≡ empty_shelf fails.now) }
    {
        Ok(MemShelf {
            alloc,
            files: Vec::new(alloc),
            chosen: Chosen::Nothing,
            read_faults: 0,
            write_faults: 0,
            misses: 0,
            faulted: None,
            plan: FaultPlan::new(alloc, fails)?,
        })
    }

    /// Puts a file, in place of what the name held. What is chosen stays chosen.
    pub fn set(&mut self, name: &str, bytes: &[u8]) -> Result<(), AllocError>
        ensures ok { OnOk result (self.new
            ≡ record self.old { files = insert self.old.files name.now bytes.now }) }
        ensures err { OnErr result (self.new ≡ self.old) }
    {
        put_file(self.alloc, &mut self.files, name, bytes)?;
        Ok(())
    }

    /// The bytes of the file of this name, or `None` where there is no such file.
    pub fn bytes(&self, name: &str) -> Option<&[u8]>
        ensures { option_map (λ bytes. bytes.now) result ≡ get self.now.files name.now }
    {
        let file = place_of(&self.files, name)?;
        Some(bytes_at(&self.files, file))
    }

    fn fail_read(&mut self, name: Option<String>) -> ShelfFail
        ensures { self.new ≡ record self.old {
          mode = Nothing;
          read_faults = counts.saturating_increment self.old.read_faults;
          faulted = option_map string_bytes name;
        } }
    {
        self.chosen = Chosen::Nothing;
        self.read_faults = saturating_increment(self.read_faults);
        self.faulted = name;
        ShelfFail
    }

    fn fail_write(&mut self) -> ShelfFail
        ensures { self.new ≡ record self.old {
          write_faults = counts.saturating_increment self.old.write_faults;
        } }
    {
        self.write_faults = saturating_increment(self.write_faults);
        ShelfFail
    }
}

impl Shelf for MemShelf {
    ghost use Rattle.std.specs.Prelude.{IsErr, IsTrue, is_err};
    ghost use Rattle.bl_outer.specs.Count.{HasCause};
    ghost use Rattle.bl_outer.specs.FaultPlan.{is_to_fail, after_call};
    ghost use Rattle.bl_outer.specs.Files.{Empties, Appends, AppendsPrefix};
    ghost use Rattle.bl_outer.specs.MemShelf.{shelf_state};
    ghost use Rattle.bl_outer.specs.Shelf.{Nothing, IsReading, IsWriting, chosen_name, mode_found, mode_read};
    ghost use Rattle.bl_outer.specs.Shelf.{mode_begun, FindsIn, GivesNext, OnlyReads, OnlyWrites, CountsFault};
    ghost use Rattle.bl_outer.specs.Shelf.{CountsMiss};

    ghost state = { shelf_state };

    fn find(&mut self, name: &str) -> Result<Found, ShelfFail>
        ensures chosen { self.new.mode ≡ mode_found name.now result }
        ensures exact { FindsIn result name.now self.old.files }

        ensures reads { OnlyReads (shelf_state self.old) (shelf_state self.new) }
        ensures fault { CountsFault name.now (shelf_state self.old) (shelf_state self.new) result }
        ensures miss { CountsMiss (shelf_state self.old) (shelf_state self.new) result }

        ensures planned { is_err result ≡ is_to_fail self.old.plan }
        ensures calls { self.new.plan ≡ after_call self.old.plan }
    {
        if self.plan.count() {
            let name = String::from_str(self.alloc, name).ok();
            return Err(self.fail_read(name));
        }
        match place_of(&self.files, name) {
            Some(file) => {
                self.chosen = Chosen::Reading { file, place: 0 };
                Ok(Found::Here)
            }
            None => {
                self.chosen = Chosen::Nothing;
                self.misses = saturating_increment(self.misses);
                Ok(Found::Missing)
            }
        }
    }

    fn next(&mut self, into: &mut [u8]) -> Result<usize, ShelfFail>
        requires reading { IsReading self.old.mode }
        requires room { 0 < length into.old }

        ensures chosen { self.new.mode ≡ mode_read self.old.mode result }
        ensures count { IfOk result (λ n. n ≤ length into.old) }
        ensures bytes { IfOk result (λ n. GivesNext self.old.mode n into.new self.old.files) }
        ensures rest { IfOk result (λ n. drop n into.new ≡ drop n into.old) }
        ensures err { OnErr result (into.new ≡ into.old) }

        ensures reads { OnlyReads (shelf_state self.old) (shelf_state self.new) }
        ensures fault { CountsFault
            (chosen_name self.old.mode) (shelf_state self.old) (shelf_state self.new) result }
        ensures misses { self.new.misses ≡ self.old.misses }

        ensures planned { is_err result ≡ is_to_fail self.old.plan }
        ensures calls { self.new.plan ≡ after_call self.old.plan }
    {
        let fails = self.plan.count();
        let Chosen::Reading { file, place } = self.chosen else {
            unreachable!()
        };
        if fails {
            let name = copied_name(self.alloc, &self.files, file);
            return Err(self.fail_read(name));
        }
        let given = copy_from(bytes_at(&self.files, file), place, into);
        self.chosen = Chosen::Reading {
            file,
            place: place + given,
        };
        Ok(given)
    }

    fn begin(&mut self, name: &str) -> Result<(), ShelfFail>
        ensures chosen { self.new.mode ≡ mode_begun name.now result }
        ensures ok { OnOk result (Empties name.now self.old.files self.new.files) }
        ensures err { OnErr result (self.new.files ≡ self.old.files) }

        ensures writes { OnlyWrites (shelf_state self.old) (shelf_state self.new) }
        ensures fault { HasCause self.old.write_faults self.new.write_faults result }

        ensures planned { IsTrue (is_to_fail self.old.plan) → IsErr result }
        ensures calls { self.new.plan ≡ after_call self.old.plan }
    {
        self.chosen = Chosen::Nothing;
        if self.plan.count() {
            return Err(self.fail_write());
        }
        let Ok(file) = put_file(self.alloc, &mut self.files, name, &[]) else {
            return Err(self.fail_write());
        };
        self.chosen = Chosen::Writing { file };
        Ok(())
    }

    fn append(&mut self, piece: &[u8]) -> Result<(), ShelfFail>
        requires writing { IsWriting self.old.mode }

        ensures chosen { self.new.mode ≡ self.old.mode }
        ensures ok { OnOk result (Appends (chosen_name self.old.mode) piece.now
            self.old.files self.new.files) }
        ensures err { OnErr result (AppendsPrefix (chosen_name self.old.mode) piece.now
            self.old.files self.new.files) }

        ensures writes { OnlyWrites (shelf_state self.old) (shelf_state self.new) }
        ensures fault { HasCause self.old.write_faults self.new.write_faults result }

        ensures planned { IsTrue (is_to_fail self.old.plan) → IsErr result }
        ensures calls { self.new.plan ≡ after_call self.old.plan }
    {
        let fails = self.plan.count();
        let Chosen::Writing { file } = self.chosen else {
            unreachable!()
        };
        if append_at(&mut self.files, file, piece, fails) {
            return Ok(());
        }
        Err(self.fail_write())
    }

    fn finish(&mut self) -> Result<(), ShelfFail>
        requires writing { IsWriting self.old.mode }

        ensures chosen { self.new.mode ≡ Nothing }
        ensures files { self.new.files ≡ self.old.files }

        ensures writes { OnlyWrites (shelf_state self.old) (shelf_state self.new) }
        ensures fault { HasCause self.old.write_faults self.new.write_faults result }

        ensures planned { is_err result ≡ is_to_fail self.old.plan }
        ensures calls { self.new.plan ≡ after_call self.old.plan }
    {
        self.chosen = Chosen::Nothing;
        if self.plan.count() {
            return Err(self.fail_write());
        }
        Ok(())
    }
}

/// Copies what follows the place, as much as fits, and answers how much.
fn copy_from(bytes: &[u8], place: usize, into: &mut [u8]) -> usize
    requires { 0 < length into.old }
    ensures count { result ≤ length into.old }
    ensures within { result ≤ length bytes.now - place }
    ensures bytes { take result into.new ≡ take result (drop place bytes.now) }
    ensures end { result ≡ 0 → drop place bytes.now ≡ [] }
    ensures rest { drop result into.new ≡ drop result into.old }
{
    let left = &bytes[place.min(bytes.len())..];
    let count = left.len().min(into.len());
    into[..count].copy_from_slice(&left[..count]);
    count
}
