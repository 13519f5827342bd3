ghost use Rattle.std.specs.Prelude.{◌≡◌, ◌+◌, ◌^◌, ◌<◌, ◌≤◌, ◌==◌, IsTrue, length, take, drop, if◌then◌else◌};
ghost use Rattle.std.specs.List.{list_all};
ghost use Rattle.dm_schema.specs.Kinds.{is_between};
ghost use Rattle.dm_time.specs.Texts.{has_shape, number_of, part};

/// Whether a text has a shape, in which each `0` stands for a digit.
pub fn has_shape(shape: &[u8], text: &[u8]) -> bool
    ensures { result ≡ has_shape shape.now text.now }
{
    match (shape, text) {
        ([], []) => true,
        ([sign, shape @ ..], [byte, text @ ..]) => {
            stands_for(*sign, *byte) && has_shape(shape, text)
        }
        _ => false,
    }
}

fn stands_for(sign: u8, byte: u8) -> bool
    ensures { result ≡ (if sign == 48 then is_between 48 57 byte else byte == sign) }
{
    match sign {
        b'0' => byte.is_ascii_digit(),
        _ => byte == sign,
    }
}

/// Whether all bytes are digits.
pub fn are_digits(bytes: &[u8]) -> bool
    ensures { result ≡ list_all (is_between 48 57) bytes.now }
{
    bytes.iter().all(|byte| byte.is_ascii_digit())
}

/// The number that digits write in base ten.
pub fn number_of(digits: &[u8]) -> u32
    requires all { IsTrue (list_all (is_between 48 57) digits.now) }
    requires few { length digits.now ≤ 6 }
    ensures value { result ≡ number_of digits.now }
    ensures below { result < 10 ^ length digits.now }
{
    let mut number = 0;
    for digit in digits {
        number = 10 * number + u32::from(*digit - b'0');
    }
    number
}

/// The number that so many digits from a place on write.
pub fn part(text: &[u8], from: usize, count: usize) -> u32
    requires within { from + count ≤ length text.now }
    requires digits { IsTrue (list_all (is_between 48 57) (take count (drop from text.now))) }
    requires few { count ≤ 6 }
    ensures value { result ≡ part from count text.now }
    ensures below { result < 10 ^ count }
{
    number_of(&text[from..from + count])
}
