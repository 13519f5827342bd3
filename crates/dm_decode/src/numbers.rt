ghost use Rattle.std.specs.Prelude.{◌≡◌, ◌≤◌, ◌<◌, ◌-◌, ◌*◌, ◌^◌, IsTrue, length};
ghost use Rattle.dm_base.specs.Reading.{be_value, le_value};
ghost use Rattle.dm_schema.specs.Kinds.{is_integer_size};
ghost use Rattle.dm_decode.specs.Values.{signed_of};

/// The number of at most eight bytes, the lowest first.
pub fn le_value(bytes: &[u8]) -> u64
    requires { length bytes.now ≤ 8 }
    ensures value { result ≡ le_value bytes.now }
    ensures below { result < 256 ^ length bytes.now }
{
    match bytes {
        [] => 0,
        [low, rest @ ..] => u64::from(*low) + 256 * le_value(rest),
    }
}

/// The number of at most eight bytes, the highest first.
pub fn be_value(bytes: &[u8]) -> u64
    requires { length bytes.now ≤ 8 }
    ensures value { result ≡ be_value bytes.now }
    ensures below { result < 256 ^ length bytes.now }
{
    let mut number = 0;
    for byte in bytes {
        number = 256 * number + u64::from(*byte);
    }
    number
}

/// The first number that is too great for a signed integer of so many bytes.
fn signed_end(size: u8) -> u64
    requires { IsTrue (is_integer_size size) }
    ensures half { result ≡ 2 ^ (8 * size - 1) }
    ensures whole { 2 * result ≡ 2 ^ (8 * size) }
{
    match size {
        1 => 0x80,
        2 => 0x8000,
        3 => 0x80_0000,
        4 => 0x8000_0000,
        _ => 0x8000_0000_0000_0000,
    }
}

/// The number that so many bytes are in two's complement.
pub fn signed_of(size: u8, number: u64) -> i128
    requires size { IsTrue (is_integer_size size) }
    requires below { number < 2 ^ (8 * size) }
    ensures { result ≡ signed_of size number }
{
    let end = signed_end(size);
    if number < end {
        i128::from(number)
    } else {
        -i128::from(end - (number - end))
    }
}
