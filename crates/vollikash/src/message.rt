//! A sentence for people for each number.
ghost use Rattle.std.specs.Prelude.{◌≡◌, ◌≢◌, ◌<◌, ◌≤◌, [], IfSome, None, get_or, length, option_map};
ghost use Rattle.vollikash.specs.declared.answer.TheConstants.{OK, NO_ROOM};
ghost use Rattle.vollikash.specs.Answers.{Gives, Lacks};
ghost use Rattle.vollikash.specs.Messages.{IsMessage, IsMessageCode, low_messages, message_of, message_of_code};

use crate::answer::{NO_ROOM, OK, RANGE};

/// Puts a sentence for people for a number that a call answers into `out`, with a zero byte after it, and the count of
/// its bytes, that one included, into `written`.
///
/// It answers `OK`, `NO_ROOM`, or `RANGE` if no call answers the number. 80 bytes are enough for each sentence.
#[unsafe(no_mangle)]
pub extern "C" fn vollikash_message(code: i32, out: &mut [u8], written: &mut usize) -> i32
    ensures told { result ≡ OK → Gives (IsMessage code) out.old out.new written.new }
    ensures room { result ≡ NO_ROOM → Lacks (IsMessage code) out.old written.new }
    ensures enough { 80 ≤ length out.old → result ≢ NO_ROOM }
    ensures unknown { result ≡ RANGE → message_of_code code ≡ None }
    ensures codes { IsMessageCode result }
    ensures same { result ≢ OK → out.new ≡ out.old }
{
    let Some(sentence) = sentence_of_code(code) else {
        *written = 0;
        return RANGE;
    };
    let bytes = sentence.as_bytes();
    let count = bytes.len();
    *written = count + 1;
    if count >= out.len() {
        return NO_ROOM;
    }
    out[..count].copy_from_slice(bytes);
    out[count] = 0;
    OK
}

/// The sentence of a number, or None if no call answers it.
fn sentence_of_code(code: i32) -> Option<&'static str>
    ensures sentence { option_map (λ s. s.now) result ≡ message_of_code code }
    ensures short { IfSome result (λ s. length s.now < 80) }
{
    match u8::try_from(code) {
        Ok(number) => sentence_of(number),
        Err(_) => None,
    }
}

/// The sentence of a number, or None if no call answers it.
fn sentence_of(code: u8) -> Option<&'static str>
    ensures sentence { option_map (λ s. s.now) result ≡ message_of code }
    ensures short { IfSome result (λ s. length s.now < 80) }
{
    if code < 19 {
        return Some(low_sentence(code));
    }
    match code {
        37 => Some("the file is a database that is no store"),
        38 => Some("the file is no database, or the database refuses"),
        43 => Some("a table has other columns or another key than in an earlier file"),
        60 => Some("out of memory"),
        80 => Some("the buffer is too small"),
        81 => Some("no change is left"),
        82 => Some("an argument is out of range"),
        83 => Some("the store is not open"),
        95 => Some("a transaction of the store is open"),
        _ => None,
    }
}

/// The sentence of success, or of what is wrong with a file.
fn low_sentence(code: u8) -> &'static str
    requires { code < 19 }
    ensures sentence { result.now ≡ get_or low_messages code [] }
    ensures short { length result.now < 80 }
{
    match code {
        0 => "no error",
        1 => "the file ends inside a part",
        2 => "the file does not begin with a table",
        3 => "the file is a patchset",
        4 => "a count is not a varint in its shortest form",
        5 => "a table has no column, or more than 32767",
        6 => "a table has no key column",
        7 => "a table's name is empty or not UTF-8",
        8 => "a table is in the file twice",
        9 => "a table has no change",
        10 => "a change has no known operation",
        11 => "an indirect flag is neither 0 nor 1",
        12 => "a field has no known type",
        13 => "a field is a floating-point value",
        14 => "a text is not UTF-8",
        15 => "a field that must be defined is not",
        16 => "an update has a field only before or only after",
        17 => "a key column is NULL",
        _ => "a key is in a table twice",
    }
}
