//! Varints: the number of columns of a table, and of bytes of a text or a blob.
ghost use Rattle.std.specs.Prelude.{◌≡◌, ◌≤◌, ◌++◌, ℕ, List, length, IfOk, IfErr, OnOk, OnErr, MatchResult};
ghost use Rattle.cs_value.specs.declared.TheConstants.{MAX_CONTENT_LEN};
ghost use Rattle.cs_value.specs.Varint.{varint};
ghost use Rattle.cs_value.specs.Spelling.{BeginsWith};
ghost use Rattle.cs_value.specs.FieldFaults.{VarintFails};
ghost use Rattle.cs_value.specs.Reading.{number_at};

use crate::MAX_CONTENT_LEN;
use crate::fault::{FieldFault, FieldFaultKind};
use crate::refusal::NoMemory;

/// Returns the length of the varint of `number` in bytes, 1 to 5. The number is at most 2147483647.
pub fn varint_len(number: u32) -> usize
    requires { number ≤ MAX_CONTENT_LEN }
    ensures { result ≡ length (varint number) }
{
    match number {
        0..0x80 => 1,
        0x80..0x4000 => 2,
        0x4000..0x20_0000 => 3,
        0x20_0000..0x1000_0000 => 4,
        _ => 5,
    }
}

/// Appends the varint of `number`, which is at most 2147483647. [`NoMemory`] leaves `out` unchanged.
pub fn varint_write(out: &mut Vec<u8>, number: u32) -> Result<(), NoMemory>
    requires { number ≤ MAX_CONTENT_LEN }
    ensures ok { OnOk result (out.new.items ≡ out.old.items ++ varint number) }
    ensures err { OnErr result (out.new.items ≡ out.old.items) }
{
    let mut digits = [0; 5];
    let mut at = 4;
    digits[at] = (number % 128) as u8;
    let mut high = number / 128;
    while high > 0 {
        at -= 1;
        digits[at] = (high % 128) as u8 + 128;
        high /= 128;
    }
    out.extend_from_slice(&digits[at..])?;
    Ok(())
}

/// Returns the number of the varint at the front of `bytes`, and its length in bytes. Bytes may follow it. It allocates
/// nothing.
///
/// # Errors
///
/// `Truncated` if the bytes end inside the varint. `BadVarint` if it is not the shortest spelling of its number, or the
/// number is above 2147483647.
pub fn varint_read(bytes: &[u8]) -> Result<(u32, usize), FieldFault>
    ensures found { IfOk result (λ r. (r.0 ≤ MAX_CONTENT_LEN) × BeginsWith bytes.now (varint r.0) r.1) }
    ensures only { (n : ℕ) (rest : List ℕ) → n ≤ MAX_CONTENT_LEN → bytes.now ≡ varint n ++ rest
        → result ≡ Ok (n, length (varint n)) }
    ensures fault { IfErr result (λ f. VarintFails bytes.now f.kind f.place) }
{
    read_number(bytes)
}

/// Returns the number at the front, which is read digit by digit, and the length of its varint in bytes.
#[inline(always)]
pub(crate) fn read_number(bytes: &[u8]) -> Result<(u32, usize), FieldFault>
    ensures exact { result ≡ number_at bytes.now }
    ensures within { MatchResult result (λ r. r.1 ≤ length bytes.now) (λ f. f.place ≤ length bytes.now) }
{
    let malformed = Err(FieldFault {
        kind: FieldFaultKind::BadVarint,
        place: 0,
    });
    if let [0x80, ..] = bytes {
        return malformed;
    }
    let mut number: u64 = 0;
    for (used, &byte) in bytes.iter().enumerate() {
        number = number * 128 + u64::from(byte % 128);
        if byte < 128 {
            if number > MAX_CONTENT_LEN as u64 {
                return malformed;
            }
            return Ok((number as u32, used + 1));
        }
        if used == 4 {
            return malformed;
        }
    }
    Err(FieldFault {
        kind: FieldFaultKind::Truncated,
        place: bytes.len(),
    })
}
