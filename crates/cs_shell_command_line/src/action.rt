//! What words ask for.

use cs_apply_conflict_kinds::Noop;
use cs_apply_engine::Policy;

/// The name of the store that is in memory, in place of one in a file.
pub const IN_MEMORY: &str = ":memory:";

/// What the words of a command line ask for. Files and stores are named by their paths.
#[derive(Clone, Copy, Debug)]
pub enum Action<'a> {
    /// The changeset in a file is applied to a store.
    Apply {
        file: &'a str,
        store: &'a str,
        policy: Policy,
        noop: Noop,
    },
    /// The join of two files is written into a third.
    Concat {
        file: &'a str,
        second: &'a str,
        out: &'a str,
    },
    /// What a file holds is printed.
    Dump {
        file: &'a str,
    },
    /// A file is printed as SQL.
    Sql {
        file: &'a str,
    },
    /// The inverse of a file is written into another.
    Invert {
        file: &'a str,
        out: &'a str,
    },
    /// The input is run as a script on a store, which may be [`IN_MEMORY`].
    Shell {
        file: &'a str,
    },
}
