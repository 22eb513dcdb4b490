//! The files of the machine.

use crate::folder::{FILE_LIMIT, Folder, FolderError};
use crate::output::write_file;
use std::alloc::Global;
use std::fs;
use std::io::{Error, ErrorKind, Read};
use std::rt::HostRuntime;

/// The files of the machine, by their paths. A plain file that is replaced has its former bytes or the new ones, also
/// where the machine stops.
#[derive(Drop)]
pub struct HostFolder<'a> {
    rt: &'a HostRuntime,
}

impl HostFolder<'_> {
    /// Wraps the runtime of a program.
    pub fn new(rt: &HostRuntime) -> HostFolder<'_> {
        HostFolder { rt }
    }

    /// Returns the runtime.
    pub fn runtime(&self) -> &HostRuntime {
        self.rt
    }
}

impl Folder for HostFolder<'_> {
    ghost use Rattle.std.specs.Prelude.{None};

    ghost files = { λ _. None };

    fn read(&self, alloc: Global, name: &str) -> Result<Vec<u8>, FolderError> {
        let file = match fs::open(self.rt, name) {
            Ok(file) => file,
            Err(error) => return Err(fault_of(&error)),
        };
        let mut bytes = Vec::new(alloc);
        match file.take(FILE_LIMIT as u64 + 1).read_to_end(&mut bytes) {
            Ok(count) if count <= FILE_LIMIT => Ok(bytes),
            Ok(_) => Err(FolderError::Failed),
            Err(error) => Err(fault_of(&error)),
        }
    }

    fn replace(&mut self, _alloc: Global, name: &str, bytes: &[u8]) -> Result<(), FolderError> {
        match write_file(self.rt, name, bytes) {
            Ok(()) => Ok(()),
            Err(error) => Err(fault_of(&error)),
        }
    }
}

/// Returns the fault for a call that failed.
fn fault_of(error: &Error) -> FolderError {
    match error.kind() {
        ErrorKind::OutOfMemory => FolderError::NoMemory,
        _ => FolderError::Failed,
    }
}
