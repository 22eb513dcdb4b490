//! Calls that are answered one after another.
ghost use Rattle.std.specs.Prelude.{◌≡◌, ◌≢◌, ◌≤◌, ℕ, List, length, OnOk, OnErr, IfOk, IfErr};
ghost use Rattle.cs_file_texts.specs.Calls.{Writes};
ghost use Rattle.cs_calls_server.specs.Frames.{CALL_LIMIT, FRAME_LIMIT, IsReceived, frame_bytes};
ghost use Rattle.cs_calls_server.specs.Serving.{no_memory, Fits, sent_bytes, Responds, Served, Serves};

pub use crate::frames::Ending;
use crate::frames::{Received, read_call, read_length};
use cs_file_texts::{Gather, OutputFault, Piece, Told, add_pieces};
use cs_value::NoMemory;
use std::alloc::Global;
use std::io::{Read, Write};

/// What answers calls.
pub trait Answering {
    // What the bytes of a call are answered, and what that makes of what answers it.
    ghost gives: { Self → List ℕ → List ℕ → Self → Type 0 };

    /// Carries out a call, and returns its answer.
    ///
    /// # Errors
    ///
    /// `NoMemory` if out of memory. Then the answer is the refusal 60 NoMemory.
    fn answer(&mut self, alloc: Global, call: &[u8]) -> Result<Vec<u8>, NoMemory>
        ensures answered { IfOk result (λ answer. gives self.old call.now answer.items self.new) }
        ensures refused { OnErr result (gives self.old call.now no_memory self.new) };
}

/// What is sent for a call.
#[derive(Drop)]
enum Sent {
    Answer(Vec<u8>),
    /// The refusal 94 FrameTooLong: the call or its answer is too long.
    TooLong,
    /// The refusal 60 NoMemory.
    NoMemory,
}

/// The most bytes after the length of a frame.
const FRAME_LEN: usize = 4_294_967_295;

/// The refusal 94 FrameTooLong.
const TOO_LONG: [u8; 13] = *b"\x0b\0\0\0\0\0\0\0\x5e\0\0\0\0";

/// The refusal 60 NoMemory.
const NO_MEMORY: [u8; 13] = *b"\x0b\0\0\0\0\0\0\0\x3c\0\0\0\0";

/// Has a call answered.
fn answer_call<A: Answering>(alloc: Global, answering: &mut A, call: &[u8]) -> Sent
    ensures { length call.now ≤ CALL_LIMIT → Responds A.gives answering.old call.now result answering.new }
{
    match answering.answer(alloc, call) {
        Ok(answer) if answer.len() > FRAME_LEN => Sent::TooLong,
        Ok(answer) => Sent::Answer(answer),
        Err(NoMemory) => Sent::NoMemory,
    }
}

/// Has what was received of a call answered.
fn respond<A: Answering>(alloc: Global, answering: &mut A, received: &Received) -> Sent
    ensures { (call : List ℕ) → IsReceived received.now call
        → Responds A.gives answering.old call result answering.new }
{
    match received {
        Received::Call(call) => answer_call(alloc, answering, call),
        Received::TooLong => Sent::TooLong,
        Received::NoMemory => Sent::NoMemory,
    }
}

/// Writes the frame of an answer, by one write if it is short.
fn write_frame<W: Write>(out: &mut Told<W>, answer: &[u8]) -> Result<(), OutputFault>
    requires { length answer.now ≤ FRAME_LIMIT }
    ensures { Writes W.contents result out.old out.new (frame_bytes answer.now) }
{
    let count = (answer.len() as u32).to_be_bytes();
    let mut frame = Gather::new();
    add_pieces(
        &mut frame,
        out,
        &[Piece::Bytes(&count), Piece::Bytes(answer)],
    )?;
    frame.flush(out)
}

/// Writes the frame of what is sent.
fn send<W: Write>(out: &mut Told<W>, sent: &Sent) -> Result<(), OutputFault>
    requires { Fits sent.now }
    ensures { Writes W.contents result out.old out.new (frame_bytes (sent_bytes sent.now)) }
{
    match sent {
        Sent::Answer(answer) => write_frame(out, answer),
        Sent::TooLong => write_frame(out, &TOO_LONG),
        Sent::NoMemory => write_frame(out, &NO_MEMORY),
    }
}

/// Reads a frame, has its call answered, and writes the frame of the answer.
fn exchange<A: Answering, R: Read, W: Write>(
    alloc: Global,
    answering: &mut A,
    input: &mut Told<R>,
    out: &mut Told<W>,
) -> Result<(), Ending>
    ensures served { OnOk result (Served R.remaining W.contents A.gives answering.old answering.new
        input.old input.new out.old out.new 1) }
    ensures ended { IfErr result (λ ending. Serves R.remaining W.contents A.gives ending answering.old answering.new
        input.old input.new out.old out.new × (ending ≢ Ending.Full)) }
{
    let count = read_length(input)?;
    let received = read_call(alloc, input, count)?;
    let sent = respond(alloc, answering, &received);
    match send(out, &sent) {
        Ok(()) => Ok(()),
        Err(_) => Err(Ending::OutputFault),
    }
}

/// Answers calls: reads frames, one after another, and writes the frame of each answer before the next one is read. A
/// frame is four bytes of length, the most significant first, and that many bytes. The bytes of a length are read one
/// at a time, so a buffered reader is faster; the writer should not hold bytes back.
///
/// A call of more than 67108864 bytes is skipped, and refused with 94 FrameTooLong. So is answered one whose answer has
/// more than 4294967295, which is carried out. If memory runs out for the bytes of a call, it is skipped, and refused
/// with 60 NoMemory. It ends where the input ends, and where a read or a write fails ([`Ending`]).
pub fn serve<A: Answering, R: Read, W: Write>(
    alloc: Global,
    answering: &mut A,
    input: &mut Told<R>,
    out: &mut Told<W>,
) -> Ending
    ensures { Serves R.remaining W.contents A.gives result answering.old answering.new
        input.old input.new out.old out.new }
{
    for _ in 0..u64::MAX {
        if let Err(ending) = exchange(alloc, answering, input, out) {
            return ending;
        }
    }
    Ending::Full
}
