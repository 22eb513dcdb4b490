//! The tokens and the words of the lines of scripts.
//!
//! ```rust
//! let Some((word, rest)) = next_word(b".hex a") else { .. };
//! assert_eq!(rt; word, b".hex");
//! assert_eq!(rt; rest, b" a");
//! ```
//!
//! A line is read from its front. `token` takes the first token: a `symbol`, which is a keyword or a sign, a word or an
//! integer (`piece`), a `quoted` text or name, or a `blob`. `words` takes the first word, which ends at a blank. `byte`
//! has the classes of bytes. `fault` says where a line does not fit, or that memory ran out.
#![tactic(auto)]

mod blob;
mod byte;
mod fault;
mod piece;
mod quoted;
mod symbol;
mod token;
mod words;

pub use fault::{TokenError, TokenFault, column, misfit_at};
pub use symbol::Symbol;
pub use token::{Found, Token, next_token};
pub use words::{is_word, next_word, no_word, one_slot, slot, text};
