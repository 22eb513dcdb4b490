//! What a store answers to calls, and the bytes of each answer.
//!
//! ```rust
//! let answer = answer_read(alloc, b"\x05\x00\x00\x00\x00\x00\x00\x00\x07")?;
//! assert!(rt; matches!(&answer, Answer::Number(7)));
//! answer_write(&mut out, &answer)?;
//! ```
//!
//! `answer` has the answers, `conflicts` those of reports, `lists` their lists, and `refusal` refusals that name
//! nothing. `reading` reads answers, `writing` writes them, and `counts` has whether they can be
//! written. Their parts are those of [`cs_calls_parts`].
#![tactic(auto)]

mod answer;
mod conflicts;
mod counts;
mod laws;
mod lists;
mod reading;
mod refusal;
mod writing;

pub use answer::{Answer, Refused, Reported};
pub use conflicts::MetConflict;
pub use counts::has_counts;
pub use cs_calls_parts::{CallError, CallFault, CallFaultKind, Column, Columns, FoundConflict};
pub use laws::answer_bytes_law;
pub use lists::{FoundConflicts, MetConflicts, Names, RowList};
pub use reading::answer_read;
pub use writing::answer_write;
