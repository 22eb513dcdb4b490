//! Output files: each is replaced as a whole, or remains unchanged.

use std::alloc::Global;
use std::fs::{File, OpenOptions, Permissions};
use std::io::{Error, ErrorKind, Write};
use std::path::{Path, PathBuf};
use std::rt::HostRuntime;
use std::{fs, io};

/// The number of names that are tried for a new file.
const NAME_COUNT: u32 = 1000;

/// Returns whether a path names a standard stream or an open file of a process.
fn is_open_stream(path: &str) -> bool {
    path.starts_with("/dev/std") || path.starts_with("/dev/fd/") || path.starts_with("/proc/")
}

/// Appends bytes to a pipe, a device or a standard stream.
fn append(rt: &HostRuntime, path: &str, bytes: &[u8]) -> io::Result<()> {
    let mut file = OpenOptions::new().append(true).open(rt, path)?;
    file.write_all(bytes)
}

/// Returns the path of a new file in the folder of another.
fn path_beside(alloc: Global, path: &str, number: u32) -> io::Result<PathBuf> {
    let folder = Path::new(path).parent().unwrap_or(Path::new(""));
    let mut name = String::new(alloc);
    write!(name, ".changeset-{number}.new")?;
    Ok(folder.join(alloc, name.as_str())?)
}

/// Creates a new file in the folder of another. Names that are taken are skipped.
fn create_beside(rt: &HostRuntime, path: &str) -> io::Result<(File, PathBuf)> {
    for number in 0..NAME_COUNT {
        let beside = path_beside(rt.alloc(), path, number)?;
        match File::create_new(rt, beside.as_str()) {
            Ok(file) => return Ok((file, beside)),
            Err(error) if error.kind() == ErrorKind::AlreadyExists => {}
            Err(error) => return Err(error),
        }
    }
    Err(Error::from(ErrorKind::AlreadyExists))
}

/// Writes bytes into a new file and syncs it.
fn fill(mut file: File, bytes: &[u8], permissions: Option<Permissions>) -> io::Result<()> {
    if let Some(permissions) = permissions {
        file.set_permissions(permissions)?;
    }
    file.write_all(bytes)?;
    file.sync_all()
}

/// Replaces the file at a path by a new one with these bytes, or creates it. The path is not a link.
fn replace(
    rt: &HostRuntime,
    path: &str,
    bytes: &[u8],
    permissions: Option<Permissions>,
) -> io::Result<()> {
    let (file, beside) = create_beside(rt, path)?;
    let replaced = fill(file, bytes, permissions).and_then(|()| fs::rename(
        rt,
        beside.as_str(),
        path,
    ));
    if replaced.is_err() {
        let _ = fs::remove_file(rt, beside.as_str());
    }
    replaced
}

/// Writes bytes into an existing file.
fn write_present(
    rt: &HostRuntime,
    path: &str,
    bytes: &[u8],
    permissions: Permissions,
) -> io::Result<()> {
    // A file without permission to write is not replaced.
    OpenOptions::new().write(true).open(rt, path)?;
    if fs::symlink_metadata(rt, path)?.is_symlink() {
        let found = fs::canonicalize(rt, path)?;
        return replace(rt, found.as_str(), bytes, Some(permissions));
    }
    replace(rt, path, bytes, Some(permissions))
}

/// Writes bytes into a file that does not exist and that a link leads to. An empty file is created first, to find its
/// path.
fn write_linked(rt: &HostRuntime, path: &str, bytes: &[u8]) -> io::Result<()> {
    File::create(rt, path)?;
    let found = fs::canonicalize(rt, path)?;
    let replaced = replace(rt, found.as_str(), bytes, None);
    if replaced.is_err() {
        let _ = fs::remove_file(rt, found.as_str());
    }
    replaced
}

/// Writes bytes into a file that does not exist.
fn write_missing(rt: &HostRuntime, path: &str, bytes: &[u8]) -> io::Result<()> {
    match fs::symlink_metadata(rt, path) {
        Ok(_) => write_linked(rt, path, bytes),
        Err(_) => replace(rt, path, bytes, None),
    }
}

/// Writes bytes into the file at a path, and creates it if it does not exist. If this fails or the machine stops, the
/// file has its previous content or these bytes: they are written into a new file in the same folder, which is then
/// renamed. Links are followed, and permissions are kept. If a link leads to a missing file and the machine stops, an
/// empty file may remain. To a standard stream, and to anything that is not a plain file, the bytes are appended.
pub(crate) fn write_file(rt: &HostRuntime, path: &str, bytes: &[u8]) -> io::Result<()> {
    if is_open_stream(path) {
        return append(rt, path, bytes);
    }
    match fs::metadata(rt, path) {
        Ok(found) if found.is_file() => write_present(rt, path, bytes, found.permissions()),
        Ok(_) => append(rt, path, bytes),
        Err(error) if error.kind() == ErrorKind::NotFound => write_missing(rt, path, bytes),
        Err(error) => Err(error),
    }
}
