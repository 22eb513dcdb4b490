//! Where reading a line stops.
ghost use Rattle.std.specs.Prelude.{◌≤◌, ◌+◌, length};

use crate::byte::skip_blanks;
use cs_value::OrNoMemory;

/// The place from which a line does not fit.
#[derive(Clone, Copy, Debug, Drop)]
pub struct TokenFault {
    /// The number of bytes of the line from the first one that does not fit.
    left: usize,
}

/// Why reading a line stops: it does not fit, or memory ran out.
pub type TokenError = OrNoMemory<TokenFault>;

/// Returns that the line does not fit after the blanks of this rest of it.
pub fn misfit_at(rest: &[u8]) -> TokenFault {
    TokenFault {
        left: skip_blanks(rest).len(),
    }
}

/// Returns the one-based column from which a line does not fit.
pub fn column(line: &[u8], misfit: TokenFault) -> usize
    ensures low { 1 ≤ result }
    ensures high { result ≤ length line.now + 1 }
{
    line.len().saturating_sub(misfit.left) + 1
}
