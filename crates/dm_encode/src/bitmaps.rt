ghost use Rattle.std.specs.Prelude.{◌≡◌, ◌≤◌, ◌<◌, ◌^◌, ◌++◌, length, OnOk};
ghost use Rattle.dm_encode.specs.Bitmaps.{bit, bitmap, bits_value};

use std::alloc::AllocError;

/// The byte whose lowest bits these are, the lowest first.
fn byte_of(bits: &[bool]) -> u8
    requires { length bits.now ≤ 8 }
    ensures value { result ≡ bits_value bits.now }
    ensures below { result < 2 ^ length bits.now }
{
    match bits {
        [] => 0,
        [low, rest @ ..] => u8::from(*low) + 2 * byte_of(rest),
    }
}

/// Adds a bitmap with a bit for each of these.
pub fn push_bitmap(bytes: &mut Vec<u8>, bits: &[bool]) -> Result<(), AllocError>
    ensures { OnOk result (bytes.new.items ≡ bytes.old.items ++ bitmap bits.now) }
{
    let mut rest = bits;
    while !rest.is_empty() {
        let (own, behind) = rest.split_at(rest.len().min(8));
        bytes.push(byte_of(own))?;
        rest = behind;
    }
    Ok(())
}
