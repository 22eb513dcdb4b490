//! Texts of files, printed into a vector.

use crate::DELETE;
use cs_files::{PrintError, Told, dump_text, print_dump, sql_text};
use cs_wire::read;
use std::io;
use std::io::Write;

/// What is printed of [`DELETE`]: its dump, and then its SQL.
const PRINTED: &[u8] =
    b"table 't' columns 2 flags 1,0\ndelete 0 old 1,'x'\nDELETE FROM \"t\" WHERE c1=1 AND c2='x';\n";

#[test]
fn prints_a_changeset(rt: HostRuntime) {
    let changeset = read(rt.alloc(), DELETE).expect(&rt, "a changeset");
    let mut out = Told::new(Vec::new(rt.alloc()));
    assert!(rt; dump_text(&changeset, &mut out).is_ok() && sql_text(&changeset, &mut out).is_ok());
    assert!(rt; out.into_inner().as_slice() == PRINTED);
}

#[test]
fn prints_nothing_of_a_file_with_a_fault_at_its_end(rt: HostRuntime) {
    let mut out = Told::new(Vec::new(rt.alloc()));
    let printed = print_dump(rt.alloc(), &DELETE[..DELETE.len() - 1], &mut out);
    assert!(rt; matches!(&printed, Err(PrintError::Read(_))));
    assert!(rt; !out.failed() && out.into_inner().is_empty());
}

/// A writer that takes all bytes, and knows whether it was flushed.
#[derive(Drop)]
struct Sink {
    flushed: bool,
}

impl Write for Sink {
    fn write(&mut self, buf: &[u8]) -> io::Result<usize> {
        Ok(buf.len())
    }

    fn flush(&mut self) -> io::Result<()> {
        self.flushed = true;
        Ok(())
    }
}

#[test]
fn hands_a_flush_on(rt: HostRuntime) {
    let mut out = Told::new(Sink { flushed: false });
    out.flush().expect(&rt, "a flush");
    assert!(rt; !out.failed());
    assert!(rt; out.into_inner().flushed);
}
