//! Files in memory.
ghost use Rattle.std.specs.Prelude.{◌≡◌, OnOk, OnErr, IfOk, IfErr, None, Some, MatchOption};
ghost use Rattle.std.specs.FinMap as map;
ghost use Rattle.cs_folder.specs.declared.folder.FolderError.TheVariants.{NoMemory as OutOfMemory};

use crate::folder::{FILE_LIMIT, Folder, FolderError};
use std::alloc::Global;
use std::collections::BTreeMap;
use std::marker::Model;

/// Files in memory, by their names.
#[derive(Drop)]
pub struct MemoryFolder {
    files: BTreeMap<Vec<u8>, Vec<u8>>,
}

impl Model for MemoryFolder {
    ghost use Rattle.std.specs.Prelude.{map as map_list};
    ghost use Rattle.std.specs.Coded.{coded_ℕ, coded_list};
    ghost use Rattle.std.specs.FinMap as map;
    ghost use Rattle.cs_folder.specs.Files.{Files};

    ghost Value = { Files };

    ghost coded = { map.code (coded_list coded_ℕ) (coded_list coded_ℕ) };

    ghost view = { λ s. map.from_entries (map_list (λ e. (e.0.items, e.1.items)) s.files.entries) };
}

impl MemoryFolder {
    /// No files.
    pub fn new(alloc: Global) -> MemoryFolder
        ensures { result ≡ map.empty }
    {
        MemoryFolder {
            files: BTreeMap::new(alloc),
        }
    }

    /// Returns the bytes of a file, or None if no file has the name.
    pub fn get(&self, name: &str) -> Option<&[u8]>
        ensures { MatchOption result (map.get self.now name.now ≡ None)
            (λ bytes. map.get self.now name.now ≡ Some bytes.now) }
    {
        match self.files.get(name.as_bytes()) {
            Some(bytes) => Some(bytes.as_slice()),
            None => None,
        }
    }

    /// Puts a file under its name. A refusal changes nothing.
    fn put(&mut self, name: Vec<u8>, bytes: Vec<u8>) -> Result<(), FolderError>
        ensures put { OnOk result (self.new ≡ map.insert self.old name.items bytes.items) }
        ensures kept { OnErr result (self.new ≡ self.old) }
        ensures refused { IfErr result (λ fault. fault ≡ OutOfMemory) }
    {
        match self.files.insert(name, bytes) {
            Ok(_) => Ok(()),
            Err(_) => Err(FolderError::NoMemory),
        }
    }
}

impl Folder for MemoryFolder {
    ghost use Rattle.std.specs.Prelude.{Some};

    ghost files = { λ m. Some m };

    fn read(&self, alloc: Global, name: &str) -> Result<Vec<u8>, FolderError> {
        match self.get(name) {
            Some(bytes) if bytes.len() <= FILE_LIMIT => copy(alloc, bytes),
            _ => Err(FolderError::Failed),
        }
    }

    fn replace(&mut self, alloc: Global, name: &str, bytes: &[u8]) -> Result<(), FolderError> {
        let name = copy(alloc, name.as_bytes())?;
        self.put(name, copy(alloc, bytes)?)
    }
}

/// Returns a copy of bytes.
fn copy(alloc: Global, bytes: &[u8]) -> Result<Vec<u8>, FolderError>
    ensures copied { IfOk result (λ copied. copied.items ≡ bytes.now) }
    ensures refused { IfErr result (λ fault. fault ≡ OutOfMemory) }
{
    match Vec::from_slice(alloc, bytes) {
        Ok(copied) => Ok(copied),
        Err(_) => Err(FolderError::NoMemory),
    }
}
