//! Numbers: each is read from the front of bytes, or put behind what is there.

ghost use Rattle.std.specs.Prelude.{◌≡◌, ◌++◌, false, OnOk};
ghost use Rattle.std.specs.Int.{w32, w64};
ghost use Rattle.kr_wire.specs.Spelling.{in_1, in_4, in_8};
ghost use Rattle.kr_wire.specs.Reading.{Gives, number_at, above, byte_in};

use crate::stop::FieldError;
use byteorder::{BigEndian, ByteOrder};
use kr_order::NoMemory;

// The number in the first 4 bytes, and what follows.
#[tactic(auto, unfolding(crate::specs::Reading::number_at))]
pub(crate) fn u32_at(bytes: &[u8]) -> Result<(u32, &[u8]), FieldError>
    ensures { Gives false (λ read. (read.0, read.1.now)) result (number_at w32 bytes.now) }
{
    if bytes.len() < 4 {
        return Err(FieldError::Broken { left: bytes.len() });
    }
    let (front, rest) = bytes.split_at(4);
    let number = u32::from_be_bytes([front[0], front[1], front[2], front[3]]);
    Ok((number, rest))
}

// The number in the first 8 bytes, and what follows.
#[tactic(auto, unfolding(crate::specs::Reading::number_at))]
pub(crate) fn u64_at(bytes: &[u8]) -> Result<(u64, &[u8]), FieldError>
    ensures { Gives false (λ read. (read.0, read.1.now)) result (number_at w64 bytes.now) }
{
    if bytes.len() < 8 {
        return Err(FieldError::Broken { left: bytes.len() });
    }
    let (front, rest) = bytes.split_at(8);
    let number = u64::from_be_bytes([
        front[0], front[1], front[2], front[3], front[4], front[5], front[6], front[7],
    ]);
    Ok((number, rest))
}

// The same of 4 bytes, where the number is greater than `low`.
#[tactic(auto, unfolding(crate::specs::Reading::above))]
pub(crate) fn id_above(low: u32, bytes: &[u8]) -> Result<(u32, &[u8]), FieldError>
    ensures { Gives false (λ read. (read.0, read.1.now)) result (above w32 low bytes.now) }
{
    let (number, rest) = u32_at(bytes)?;
    if low < number {
        Ok((number, rest))
    } else {
        Err(FieldError::Broken { left: bytes.len() })
    }
}

// The same of 8 bytes, where the number is not 0.
#[tactic(auto, unfolding(crate::specs::Reading::above))]
pub(crate) fn positive(bytes: &[u8]) -> Result<(u64, &[u8]), FieldError>
    ensures { Gives false (λ read. (read.0, read.1.now)) result (above w64 0 bytes.now) }
{
    let (number, rest) = u64_at(bytes)?;
    if 0 < number {
        Ok((number, rest))
    } else {
        Err(FieldError::Broken { left: bytes.len() })
    }
}

// The first byte, where it is in this range, and what follows.
#[tactic(auto, unfolding(crate::specs::Reading::byte_in))]
pub(crate) fn byte_in(low: u8, high: u8, bytes: &[u8]) -> Result<(u8, &[u8]), FieldError>
    ensures { Gives false (λ read. (read.0, read.1.now)) result (byte_in low high bytes.now) }
{
    match bytes {
        [] => Err(FieldError::Broken { left: 0 }),
        [byte, rest @ ..] => {
            if *byte < low {
                Err(FieldError::Broken { left: bytes.len() })
            } else if high < *byte {
                Err(FieldError::Broken { left: bytes.len() })
            } else {
                Ok((*byte, rest))
            }
        }
    }
}

// Puts a byte behind what is there.
pub(crate) fn put_1(out: &mut Vec<u8>, n: u8) -> Result<(), NoMemory>
    ensures { OnOk result (out.new.items ≡ out.old.items ++ in_1 n) }
{
    out.push(n)?;
    Ok(())
}

// Puts the number's 4 bytes behind what is there.
pub(crate) fn put_4(out: &mut Vec<u8>, n: u32) -> Result<(), NoMemory>
    ensures { OnOk result (out.new.items ≡ out.old.items ++ in_4 n) }
{
    let mut bytes = [0u8; 4];
    BigEndian::write_u32(&mut bytes, n);
    out.extend_from_slice(&bytes)?;
    Ok(())
}

// Puts the number's 8 bytes behind what is there.
pub(crate) fn put_8(out: &mut Vec<u8>, n: u64) -> Result<(), NoMemory>
    ensures { OnOk result (out.new.items ≡ out.old.items ++ in_8 n) }
{
    let mut bytes = [0u8; 8];
    BigEndian::write_u64(&mut bytes, n);
    out.extend_from_slice(&bytes)?;
    Ok(())
}
