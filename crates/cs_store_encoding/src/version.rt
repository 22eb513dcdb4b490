//! The versions of the records that are read.
ghost use Rattle.std.specs.Prelude.{◌≡◌, IfSome, None, Some, MatchOption};
ghost use Rattle.cs_store_encoding.specs.Stored.{IsVersion};
ghost use Rattle.cs_store_encoding.specs.Versions.{bytes_of};

/// A version of the records.
#[derive(Clone, Copy, Debug)]
pub enum Version {
    /// The one that stores are written in.
    Current,
    /// The one before, in which only the columns of the key refuse NULL.
    Former,
}

/// The bytes of the version that stores are written in.
pub const VERSION: &[u8] = &[2];

/// The bytes of the former version.
const FORMER_VERSION: &[u8] = &[1];

/// Returns the version that the bytes are of, or None if it is not one that is read.
pub fn version_of(bytes: &[u8]) -> Option<Version>
    ensures { MatchOption result (¬ IsVersion bytes.now) (λ v. bytes.now ≡ bytes_of v) }
{
    if bytes == VERSION {
        Some(Version::Current)
    } else if bytes == FORMER_VERSION {
        Some(Version::Former)
    } else {
        None
    }
}
