//! Calls in frames, read from a stream one after another, and their answers, written to another.
//!
//! ```rust
//! // "tables", a call of one byte, in a frame.
//! let mut out = Vec::new(alloc);
//! let mut input = Told::new(b"\0\0\0\x01\x01".as_slice());
//! let ending = serve(alloc, &mut store, &mut input, &mut Told::new(&mut out));
//! assert!(rt; ending == Ending::Done);
//! ```
//!
//! `frames` reads the calls of frames, and `serving` has them answered, and writes the frames of the answers.
#![tactic(auto)]

mod frames;
mod serving;

pub use serving::{Answering, Ending, serve};
