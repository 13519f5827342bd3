ghost use Rattle.std.specs.Prelude.{◌≡◌, ◌∷◌, ◌++◌, OnOk};
ghost use Rattle.dm_encode.specs.Numbers.{be_bytes, le_bytes, lenenc_bytes};

use std::alloc::AllocError;

/// Adds a number in so many bytes, the lowest first.
pub fn push_le(bytes: &mut Vec<u8>, width: u8, number: u64) -> Result<(), AllocError>
    ensures { OnOk result (bytes.new.items ≡ bytes.old.items ++ le_bytes width number) }
{
    if width == 0 {
        return Ok(());
    }
    bytes.push((number % 256) as u8)?;
    push_le(bytes, width - 1, number / 256)
}

/// Adds a number in so many bytes, the highest first.
pub fn push_be(bytes: &mut Vec<u8>, width: u8, number: u64) -> Result<(), AllocError>
    ensures { OnOk result (bytes.new.items ≡ bytes.old.items ++ be_bytes width number) }
{
    if width == 0 {
        return Ok(());
    }
    push_be(bytes, width - 1, number / 256)?;
    bytes.push((number % 256) as u8)?;
    Ok(())
}

/// Adds a length-encoded number of MySQL's protocol.
pub fn push_lenenc(bytes: &mut Vec<u8>, number: u64) -> Result<(), AllocError>
    ensures { OnOk result (bytes.new.items ≡ bytes.old.items ++ lenenc_bytes number) }
{
    match number {
        0..=250 => push_le(bytes, 1, number),
        251..=0xFFFF => push_first(bytes, 252, 2, number),
        0x1_0000..=0xFF_FFFF => push_first(bytes, 253, 3, number),
        _ => push_first(bytes, 254, 8, number),
    }
}

/// Adds a byte that tells of a number's width, and the number.
fn push_first(bytes: &mut Vec<u8>, first: u8, width: u8, number: u64) -> Result<(), AllocError>
    ensures { OnOk result (bytes.new.items ≡ bytes.old.items ++ first ∷ le_bytes width number) }
{
    bytes.push(first)?;
    push_le(bytes, width, number)
}
