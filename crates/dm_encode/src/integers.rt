ghost use Rattle.std.specs.Prelude.{◌≡◌, ◌*◌, ◌^◌, ◌≤◌, pos, int_lt, unsigned_abs, IsTrue};
ghost use Rattle.dm_schema.specs.Fits.{fits_signed, fits_unsigned, fits_year};
ghost use Rattle.dm_schema.specs.Kinds.{is_integer_size};
ghost use Rattle.dm_encode.specs.Values.{twos_complement, year_number};

/// The first number that is too great for an unsigned integer of so many bytes.
fn unsigned_end(size: u8) -> u128
    requires { IsTrue (is_integer_size size) }
    ensures value { result ≡ 2 ^ (8 * size) }
    ensures most { result ≤ 2 ^ 64 }
{
    match size {
        1 => 0x100,
        2 => 0x1_0000,
        3 => 0x100_0000,
        4 => 0x1_0000_0000,
        _ => 0x1_0000_0000_0000_0000,
    }
}

pub fn is_negative(number: i128) -> bool
    ensures { result ≡ int_lt number (pos 0) }
{
    number < 0
}

pub fn magnitude(number: i128) -> u128
    ensures { result ≡ unsigned_abs number }
{
    number.unsigned_abs()
}

/// A number in two's complement, of so many bytes.
pub fn twos_complement(size: u8, number: i128) -> u64
    requires size { IsTrue (is_integer_size size) }
    requires fits { IsTrue (fits_signed size number) }
    ensures { result ≡ twos_complement size number }
{
    if is_negative(number) {
        (unsigned_end(size) - magnitude(number)) as u64
    } else {
        magnitude(number) as u64
    }
}

pub fn unsigned_number(size: u8, number: i128) -> u64
    requires size { IsTrue (is_integer_size size) }
    requires fits { IsTrue (fits_unsigned size number) }
    ensures { result ≡ unsigned_abs number }
{
    magnitude(number) as u64
}

/// What a YEAR's byte is.
pub fn year_number(number: i128) -> u64
    requires { IsTrue (fits_year number) }
    ensures { result ≡ year_number (unsigned_abs number) }
{
    if number == 0 {
        0
    } else {
        (number - 1900) as u64
    }
}
