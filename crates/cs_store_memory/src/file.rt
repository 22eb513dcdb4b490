//! A file in memory, as a disk.
ghost use Rattle.std.specs.Prelude.{◌≡◌, [], length, true, false, refl, is_ok, is_err, MatchBool, OnOk};
ghost use Rattle.sqlite_disk.specs.Disk.{Holds, Torn, Cut, CountsFault, MoreFaults};
ghost use Rattle.sqlite_disk.specs.Refusal.{finds_no_room};
ghost use Rattle.cs_store_memory.specs.Memory.{bytes_of, IsFresh};

use sqlite_disk::{Disk, Tally, digest_of};
use std::alloc::{AllocError, Global};
use std::io;

/// A file in memory. It ends with the process: its contracts speak as if a crash left its bytes.
#[derive(Drop)]
pub struct MemoryFile {
    bytes: Vec<u8>,
    // The number of calls that failed, of reads among them whose bytes had another digest, and of writes for which
    // memory ran out.
    faults: u64,
    caught: u64,
    refused: u64,
}

impl MemoryFile {
    /// Returns an empty file.
    pub fn new(alloc: Global) -> MemoryFile
        ensures empty { bytes_of result ≡ [] }
        ensures fresh { IsFresh result }
    {
        MemoryFile::from_bytes(Vec::new(alloc))
    }

    /// Returns a file of these bytes.
    pub fn from_bytes(bytes: Vec<u8>) -> MemoryFile
        ensures bytes { bytes_of result ≡ bytes.items }
        ensures fresh { IsFresh result }
    {
        MemoryFile {
            bytes,
            faults: 0,
            caught: 0,
            refused: 0,
        }
    }

    /// Returns the bytes of the file.
    pub fn as_slice(&self) -> &[u8]
        ensures { result.now ≡ bytes_of self.now }
    {
        &self.bytes
    }
}

impl Disk for MemoryFile {
    ghost seen = { λ file. file.bytes.items };

    ghost may_leave = { λ file left. left ≡ file.bytes.items };

    ghost is_usable = { λ _. true };

    ghost faults = { λ file. file.faults };

    ghost is_clean = { λ _. true };

    ghost tally_of = { λ file. record { caught = file.caught; refused = file.refused } };

    ghost key_of = { λ _. 0 };

    ghost is_fair = { λ _ _. true };

    ghost fair_if_clean = { λ _ _ _. refl };

    ghost seen_may_stay = { λ _. refl };

    fn mixes(&self) -> bool {
        false
    }

    // No other program can change the bytes, so digests need no secret.
    fn key(&self) -> u64 {
        0
    }

    fn tally(&self) -> Tally {
        Tally {
            caught: self.caught,
            refused: self.refused,
        }
    }

    fn may_be_used(&self) -> bool {
        true
    }

    fn len(&mut self) -> io::Result<usize> {
        Ok(self.bytes.len())
    }

    fn read_at(&mut self, at: usize, buf: &mut [u8]) -> io::Result<()> {
        if at > self.bytes.len() || buf.len() > self.bytes.len() - at {
            return Err(io::ErrorKind::UnexpectedEof.into());
        }
        buf.copy_from_slice(&self.bytes[at..at + buf.len()]);
        Ok(())
    }

    fn read_checked(&mut self, key: u64, want: u64, at: usize, buf: &mut [u8]) -> io::Result<()> {
        self.read_at(at, buf)?;
        if digest_of(key, buf) != want {
            self.faults = self.faults.saturating_add(1);
            self.caught = self.caught.saturating_add(1);
            return Err(io::ErrorKind::InvalidData.into());
        }
        Ok(())
    }

    fn write_at(&mut self, at: usize, bytes: &[u8]) -> io::Result<()> {
        let outcome = overwrite(&mut self.bytes, at, bytes);
        count(outcome, &mut self.faults, &mut self.refused)
    }

    fn set_len(&mut self, len: usize) -> io::Result<()> {
        let outcome = resize(&mut self.bytes, len);
        count(outcome, &mut self.faults, &mut self.refused)
    }

    fn sync(&mut self) -> io::Result<()> {
        Ok(())
    }
}

/// Counts a write for which memory ran out. Its error is that of a full disk, since a disk has none for memory.
fn count(outcome: Result<(), AllocError>, faults: &mut u64, refused: &mut u64) -> io::Result<()>
    ensures variant { is_ok result ≡ is_ok outcome }
    ensures kind { finds_no_room result ≡ is_err result }
    ensures faults { CountsFault result faults.old faults.new }
    ensures refused { MatchBool (is_err result) (MoreFaults refused.old refused.new) (refused.new ≡ refused.old) }
{
    if outcome.is_err() {
        *faults = faults.saturating_add(1);
        *refused = refused.saturating_add(1);
        return Err(io::ErrorKind::StorageFull.into());
    }
    Ok(())
}

/// Cuts bytes off, or appends zeros.
fn resize(file: &mut Vec<u8>, len: usize) -> Result<(), AllocError>
    ensures len { OnOk result (length file.new.items ≡ len) }
    ensures others { Cut len file.old.items file.new.items }
{
    file.resize(len, 0)
}

/// Writes bytes from an offset on. A gap after the end is filled with zeros.
fn overwrite(file: &mut Vec<u8>, at: usize, bytes: &[u8]) -> Result<(), AllocError>
    ensures written { OnOk result (Holds file.new.items at bytes.now) }
    ensures others { Torn at (length bytes.now) file.old.items file.new.items }
{
    if at == file.len() {
        return file.extend_from_slice(bytes);
    }
    let end = at.checked_add(bytes.len()).ok_or(AllocError)?;
    if end > file.len() {
        resize(file, end)?;
    }
    file[at..end].copy_from_slice(bytes);
    Ok(())
}
