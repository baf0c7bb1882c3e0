ghost use Rattle.std.specs.Prelude.{◌≡◌, ◌<◌, ◌^◌, ◌++◌, length, OnOk, OnErr};
ghost use Rattle.sc_frame.specs.Fields.{number_field, int_field, bytes_field};

use byteorder::{BigEndian, ByteOrder};
use sc_base::NoMemory;

/// Appends a number as 2 bytes. Out of memory nothing is appended, as by the other calls.
#[tactic(auto, unfolding(crate::specs::Fields::number_field))]
pub fn put_u16(out: &mut Vec<u8>, n: u16) -> Result<(), NoMemory>
    ensures ok { OnOk result (out.new.items ≡ out.old.items ++ number_field 2 n) }
    ensures err { OnErr result (out.new.items ≡ out.old.items) }
{
    let mut field = [0u8; 2];
    BigEndian::write_u16(&mut field, n);
    out.extend_from_slice(&field)?;
    Ok(())
}

/// Appends a number as 4 bytes.
#[tactic(auto, unfolding(crate::specs::Fields::number_field))]
pub fn put_u32(out: &mut Vec<u8>, n: u32) -> Result<(), NoMemory>
    ensures ok { OnOk result (out.new.items ≡ out.old.items ++ number_field 4 n) }
    ensures err { OnErr result (out.new.items ≡ out.old.items) }
{
    let mut field = [0u8; 4];
    BigEndian::write_u32(&mut field, n);
    out.extend_from_slice(&field)?;
    Ok(())
}

/// Appends a number as 8 bytes.
#[tactic(auto, unfolding(crate::specs::Fields::number_field))]
pub fn put_u64(out: &mut Vec<u8>, n: u64) -> Result<(), NoMemory>
    ensures ok { OnOk result (out.new.items ≡ out.old.items ++ number_field 8 n) }
    ensures err { OnErr result (out.new.items ≡ out.old.items) }
{
    let mut field = [0u8; 8];
    BigEndian::write_u64(&mut field, n);
    out.extend_from_slice(&field)?;
    Ok(())
}

/// Appends a signed number as 8 bytes, in two's complement.
#[tactic(auto, unfolding(crate::specs::Fields::number_field))]
pub fn put_i64(out: &mut Vec<u8>, n: i64) -> Result<(), NoMemory>
    ensures ok { OnOk result (out.new.items ≡ out.old.items ++ int_field n) }
    ensures err { OnErr result (out.new.items ≡ out.old.items) }
{
    let mut field = [0u8; 8];
    BigEndian::write_i64(&mut field, n);
    out.extend_from_slice(&field)?;
    Ok(())
}

/// Appends 4 bytes of length and the bytes.
#[tactic(auto, unfolding(crate::specs::Fields::number_field))]
pub fn put_bytes(out: &mut Vec<u8>, bytes: &[u8]) -> Result<(), NoMemory>
    requires { length bytes.now < 2 ^ 32 }
    ensures ok { OnOk result (out.new.items ≡ out.old.items ++ bytes_field bytes.now) }
    ensures err { OnErr result (out.new.items ≡ out.old.items) }
{
    let mut length = [0u8; 4];
    BigEndian::write_u32(&mut length, bytes.len() as u32);
    out.reserve(bytes.len() + 4)?;
    out.extend_from_slice(&length)?;
    out.extend_from_slice(bytes)?;
    Ok(())
}
