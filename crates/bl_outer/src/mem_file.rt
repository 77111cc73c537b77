//! A file in memory, and lists of such files. The first file of a name counts.

ghost use Rattle.std.specs.Prelude.{◌≡◌, ◌↔◌, ◌++◌, false, IsTrue, IfOk, OnOk, OnErr, IfSome, IfNone, string_bytes};
ghost use Rattle.std.specs.FinMap.{insert};
ghost use Rattle.std.specs.Bool.{OnTrue, OnFalse};
ghost use Rattle.bl_outer.specs.Files.{Holds, IsAbsent, Appends, AppendsPrefix};
ghost use Rattle.bl_outer.specs.Sink.{Adds, AddsPrefix};
ghost use Rattle.bl_outer.specs.MemFile.{IsFirst, NamesStay, files_of, name_at};

use crate::fault_plan::add_piece;
use std::alloc::{AllocError, Global};
use std::marker::Model;

/// A name and the bytes of its file.
#[derive(Drop)]
pub(crate) struct MemFile {
    name: String,
    bytes: Vec<u8>,
}

impl Model for MemFile {
    ghost use Rattle.std.specs.Prelude.{ℕ, List, string_bytes};

    ghost Value = { List ℕ × List ℕ };

    ghost view = { λ a. (string_bytes a.name, a.bytes.items) };
}

impl MemFile {
    fn new(alloc: Global, name: &str, bytes: &[u8]) -> Result<MemFile, AllocError>
        ensures { IfOk result (λ file. file ≡ (name.now, bytes.now)) }
    {
        Ok(MemFile {
            name: String::from_str(alloc, name)?,
            bytes: Vec::from_slice(alloc, bytes)?,
        })
    }

    fn name(&self) -> &str
        ensures { result.now ≡ self.now.0 }
    {
        self.name.as_str()
    }

    fn is_named(&self, name: &str) -> bool
        ensures { IsTrue result ↔ (self.now.0 ≡ name.now) }
    {
        self.name.as_str() == name
    }

    fn bytes(&self) -> &[u8]
        ensures { result.now ≡ self.now.1 }
    {
        &self.bytes
    }

    fn replace(&mut self, alloc: Global, bytes: &[u8]) -> Result<(), AllocError>
        ensures ok { OnOk result (self.new ≡ (self.old.0, bytes.now)) }
        ensures err { OnErr result (self.new ≡ self.old) }
    {
        self.bytes = Vec::from_slice(alloc, bytes)?;
        Ok(())
    }

    fn append(&mut self, piece: &[u8], fails: bool) -> bool
        ensures name { self.new.0 ≡ self.old.0 }
        ensures whole { OnTrue result (Adds piece.now self.old.1 self.new.1) }
        ensures part { OnFalse result (AddsPrefix piece.now self.old.1 self.new.1) }
        ensures planned { OnTrue result (fails ≡ false) }
    {
        add_piece(&mut self.bytes, piece, fails)
    }
}

/// The place of the file of this name.
pub(crate) fn place_of(files: &[MemFile], name: &str) -> Option<usize>
    ensures found { IfSome result (λ i. IsFirst files.now i × (name_at files.now i ≡ name.now)) }
    ensures absent { IfNone result (IsAbsent (files_of files.now) name.now) }
{
    for (i, file) in files.iter().enumerate() {
        if file.is_named(name) {
            return Some(i);
        }
    }
    None
}

/// The bytes of the file at this place.
pub(crate) fn bytes_at(files: &[MemFile], index: usize) -> &[u8]
    requires { IsFirst files.now index }
    ensures { Holds (files_of files.now) (name_at files.now index) result.now }
{
    let file = &files[index];
    file.bytes()
}

/// A copy of the name of the file at this place, where there is memory for it.
pub(crate) fn copied_name(alloc: Global, files: &[MemFile], index: usize) -> Option<String>
    requires { IsFirst files.now index }
    ensures { IfSome result (λ name. string_bytes name ≡ name_at files.now index) }
{
    let file = &files[index];
    String::from_str(alloc, file.name()).ok()
}

/// Gives the file of this name these bytes, and answers its place.
pub(crate) fn put_file(
    alloc: Global,
    files: &mut Vec<MemFile>,
    name: &str,
    bytes: &[u8],
) -> Result<usize, AllocError>
    ensures put { OnOk result (files_of files.new.items
        ≡ insert (files_of files.old.items) name.now bytes.now) }
    ensures place { IfOk result (λ i. IsFirst files.new.items i
        × (name_at files.new.items i ≡ name.now)) }
    ensures names { NamesStay files.old.items files.new.items }
    ensures err { OnErr result (files.new.items ≡ files.old.items) }
{
    match place_of(files, name) {
        Some(i) => {
            let file = &mut files[i];
            file.replace(alloc, bytes)?;
            Ok(i)
        }
        None => {
            files.push(MemFile::new(alloc, name, bytes)?)?;
            Ok(files.len() - 1)
        }
    }
}

/// Adds the piece at the end of the file at this place, or a part of it where the call is to fail,
/// and says whether the whole piece was added.
pub(crate) fn append_at(files: &mut [MemFile], index: usize, piece: &[u8], fails: bool) -> bool
    requires { IsFirst files.old index }
    ensures whole { OnTrue result (Appends (name_at files.old index) piece.now
        (files_of files.old) (files_of files.new)) }
    ensures part { OnFalse result (AppendsPrefix (name_at files.old index) piece.now
        (files_of files.old) (files_of files.new)) }
    ensures planned { OnTrue result (fails ≡ false) }
    ensures names { NamesStay files.old files.new }
{
    let file = &mut files[index];
    file.append(piece, fails)
}
