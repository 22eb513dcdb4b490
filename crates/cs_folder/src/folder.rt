//! What reading and replacing a file is.
ghost use Rattle.std.specs.Prelude.{◌≡◌, None, IfOk, IfErr, OnOk, OnErr};
ghost use Rattle.cs_folder.specs.Files.{HasFile, IsUnreadable, ReplacesFile};
ghost use Rattle.cs_folder.specs.declared.folder.FolderError.TheVariants.{Failed as HasFailed};

use std::alloc::Global;
use thiserror::Error;

/// The largest size of a file that is read, in bytes.
pub const FILE_LIMIT: usize = 1_073_741_824;

/// Why a file is not read or replaced.
#[derive(Clone, Copy, Debug, PartialEq, Eq, Error)]
pub enum FolderError {
    #[error("out of memory")]
    NoMemory,
    /// A file that is to be read is missing or too long, or a call failed.
    #[error("a file is not read or written")]
    Failed,
}

/// Files by their names.
pub trait Folder {
    ghost use Rattle.std.specs.Prelude.{Option};
    ghost use Rattle.cs_folder.specs.Files.{Files};

    // The files, where they are known. Those of a machine are not: other programs change them.
    ghost files: { Self → Option Files };

    /// Returns the bytes of a file.
    ///
    /// # Errors
    ///
    /// `Failed` if the file is missing or has more than [`FILE_LIMIT`] bytes, or if a call fails. `NoMemory` if memory
    /// runs out.
    fn read(&self, alloc: Global, name: &str) -> Result<Vec<u8>, FolderError>
        ensures read { IfOk result (λ bytes. HasFile (files self.now) name.now bytes.items) }
        ensures failed { IfErr result (λ fault. fault ≡ HasFailed → IsUnreadable (files self.now) name.now) };

    /// Replaces a file as a whole, or makes it.
    ///
    /// # Errors
    ///
    /// `Failed` if a call fails, which it does only where the files are not known, and `NoMemory` if memory runs out.
    /// Then each plain file is as it was.
    fn replace(&mut self, alloc: Global, name: &str, bytes: &[u8]) -> Result<(), FolderError>
        ensures replaced { OnOk result (ReplacesFile (files self.old) name.now bytes.now (files self.new)) }
        ensures failed { IfErr result (λ fault. fault ≡ HasFailed → files self.old ≡ None) }
        ensures kept { OnErr result (files self.new ≡ files self.old) };
}
