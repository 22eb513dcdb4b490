//! Frames, read from a stream: four bytes of length, the most significant first, and that many bytes.
ghost use Rattle.std.specs.Prelude.{◌≡◌, ◌≤◌, ◌<◌, ℕ, List, [], ◌∷◌, ◌++◌, length, true};
ghost use Rattle.std.specs.Prelude.{IfOk, IfErr, OnErr, MatchOption, IsTrue};
ghost use Rattle.std.specs.Int.{w32, to_be_bytes};
ghost use Rattle.std.specs.Io.KnownBytes.{Consumes, IsAtEnd, Keeps};
ghost use Rattle.cs_file_texts.specs.Told.{has_failed, known};
ghost use Rattle.cs_calls_server.specs.Frames.{FRAME_LIMIT, Breaks, Holds, IsReceived, Reads, ReadsCount, Stops};

use cs_file_texts::Told;
use std::alloc::Global;
use std::io::Read;

/// How the answering of calls ended.
#[derive(Clone, Copy, Debug, PartialEq, Eq)]
pub enum Ending {
    /// The input ended, and each frame was answered.
    Done,
    /// The input ended within a frame.
    Torn,
    /// A read failed.
    InputFault,
    /// A write failed, or took no byte.
    OutputFault,
    /// 18446744073709551615 frames were answered.
    Full,
}

/// The most bytes of a call that is carried out.
const CALL_LEN: usize = 67_108_864;

/// The number of bytes that are read at once.
const CHUNK_LEN: usize = 4096;

/// Reads the next bytes into a chunk, up to a number. There are none only at the end.
fn next_piece<'a, R: Read>(
    input: &mut Told<R>,
    chunk: &'a mut [u8],
    most: usize,
) -> Result<&'a [u8], Ending>
    requires { most ≤ length chunk.now }
    ensures piece { IfOk result (λ piece.
        Consumes (known R.remaining input.old) (known R.remaining input.new) piece.now) }
    ensures short { IfOk result (λ piece. length piece.now ≤ most) }
    ensures end { IfOk result (λ piece. length piece.now ≡ 0 → 0 < most →
        IsAtEnd (known R.remaining input.new)) }
    ensures err { IfErr result (λ ending. ending ≡ Ending.InputFault) }
    ensures kept { OnErr result (Keeps (known R.remaining input.old) (known R.remaining input.new)) }
    ensures flagged { OnErr result (IsTrue (has_failed input.new)) }
{
    match input.read(&mut chunk[..most]) {
        Ok(count) => Ok(&chunk[..count]),
        Err(_) => Err(Ending::InputFault),
    }
}

/// Reads a byte, if the input has one.
fn next_byte<R: Read>(input: &mut Told<R>) -> Result<Option<u8>, Ending>
    ensures byte { IfOk result (λ o. MatchOption o
        (Reads R.remaining input.old input.new [] × IsAtEnd (known R.remaining input.new))
        (λ byte. Reads R.remaining input.old input.new (byte ∷ []))) }
    ensures failed { IfErr result (λ ending. (ending ≡ Ending.InputFault) × Reads R.remaining input.old input.new []
        × IsTrue (has_failed input.new)) }
{
    let mut byte = [0; 1];
    let piece = next_piece(input, &mut byte, 1)?;
    Ok(piece.first().copied())
}

/// Reads a byte of a frame that has begun.
fn owed_byte<R: Read>(input: &mut Told<R>) -> Result<u8, Ending>
    ensures byte { IfOk result (λ byte. Reads R.remaining input.old input.new (byte ∷ [])) }
    ensures stopped { IfErr result (λ ending. Reads R.remaining input.old input.new []
        × Breaks R.remaining ending input.new) }
{
    match next_byte(input)? {
        Some(byte) => Ok(byte),
        None => Err(Ending::Torn),
    }
}

/// Reads the length of a frame.
pub(crate) fn read_length<R: Read>(input: &mut Told<R>) -> Result<usize, Ending>
    ensures read { IfOk result (λ count. (count ≤ FRAME_LIMIT)
        × Reads R.remaining input.old input.new (to_be_bytes w32 count)) }
    ensures stopped { IfErr result (λ ending. (bytes : List ℕ) × (length bytes < 4)
        × Stops R.remaining ending input.old input.new bytes) }
{
    let Some(first) = next_byte(input)? else {
        return Err(Ending::Done);
    };
    let second = owed_byte(input)?;
    let third = owed_byte(input)?;
    let fourth = owed_byte(input)?;
    Ok(u32::from_be_bytes([first, second, third, fourth]) as usize)
}

/// What is received of the bytes of a call.
#[derive(Drop)]
pub(crate) enum Received {
    /// All of them.
    Call(Vec<u8>),
    /// There are more than `CALL_LEN`. They are skipped.
    TooLong,
    /// Memory ran out for them. They are skipped.
    NoMemory,
}

/// The bytes of a call so far. If memory runs out, they are lost, and the others are skipped.
#[derive(Drop)]
struct Body {
    bytes: Vec<u8>,
    is_lost: bool,
}

impl Body {
    /// Appends bytes. They are lost if memory runs out.
    fn add(&mut self, alloc: Global, piece: &[u8])
        ensures added { (before : List ℕ) → Holds self.old before → Holds self.new (before ++ piece.now) }
        ensures skipped { self.old.is_lost ≡ true → self.new ≡ self.old }
    {
        if !self.is_lost && self.bytes.extend_from_slice(piece).is_err() {
            self.bytes = Vec::new(alloc);
            self.is_lost = true;
        }
    }
}

/// Reads that many bytes of a call. If there are more than `CALL_LEN`, or memory runs out, they are skipped.
pub(crate) fn read_call<R: Read>(
    alloc: Global,
    input: &mut Told<R>,
    count: usize,
) -> Result<Received, Ending>
    requires { count ≤ FRAME_LIMIT }
    ensures received { IfOk result (λ received. (call : List ℕ)
        × ReadsCount R.remaining input.old input.new count call × IsReceived received call) }
    ensures stopped { IfErr result (λ ending. (bytes : List ℕ) × (length bytes < count)
        × Reads R.remaining input.old input.new bytes × Breaks R.remaining ending input.new) }
{
    let is_long = count > CALL_LEN;
    let mut chunk = [0; CHUNK_LEN];
    let mut body = Body {
        bytes: Vec::new(alloc),
        is_lost: is_long,
    };
    let mut read = 0;
    while read < count {
        let most = CHUNK_LEN.min(count - read);
        let piece = next_piece(input, &mut chunk, most)?;
        if piece.is_empty() {
            return Err(Ending::Torn);
        }
        body.add(alloc, piece);
        read += piece.len();
    }
    Ok(match body {
        _ if is_long => Received::TooLong,
        Body { is_lost: true, .. } => Received::NoMemory,
        Body { bytes, .. } => Received::Call(bytes),
    })
}
