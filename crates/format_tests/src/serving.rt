//! Calls in frames, and the frames of their answers.

use cs_calls_server::{Answering, Ending, serve};
use cs_files::Told;
use cs_value::NoMemory;
use std::alloc::Global;

/// Answers each call with its bytes.
#[derive(Drop)]
struct Echo;

impl Answering for Echo {
    // This test says nothing of what is answered: it compares the bytes.
    ghost gives = { λ old call answer new. Unit {0} };

    fn answer(&mut self, alloc: Global, call: &[u8]) -> Result<Vec<u8>, NoMemory> {
        Ok(Vec::from_slice(alloc, call)?)
    }
}

/// Frames of calls, those of their answers, and how it ends.
const EXCHANGES: &[(&[u8], &[u8], Ending)] = &[
    (b"", b"", Ending::Done),
    (b"\0\0\0\0", b"\0\0\0\0", Ending::Done),
    (
        b"\0\0\0\x01a\0\0\0\x02bc",
        b"\0\0\0\x01a\0\0\0\x02bc",
        Ending::Done,
    ),
    (b"\0\0\0\x01a\0", b"\0\0\0\x01a", Ending::Torn),
    (b"\0\0\0\x01a\0\0\0\x02b", b"\0\0\0\x01a", Ending::Torn),
    (b"\x04\0\0\x01", b"", Ending::Torn),
    (b"\0\0\0", b"", Ending::Torn),
];

#[test]
fn answers_frames_in_turn(rt: HostRuntime) {
    for (at, (frames, answers, ending)) in EXCHANGES.iter().enumerate() {
        let mut out = Vec::new(rt.alloc());
        let ended = serve(
            rt.alloc(),
            &mut Echo,
            &mut Told::new(*frames),
            &mut Told::new(&mut out),
        );
        assert!(rt; ended == *ending && out.as_slice() == *answers, "at {at}");
    }
}
