ghost use Rattle.std.specs.Prelude.{◌≡◌, ◌≤◌, length, IsTrue};
ghost use Rattle.std.specs.List.{list_all};
ghost use Rattle.dm_words.specs.Words.{is_digit, are_digits, value_of_digits, number_in};

/// The number that a text of 1 to 10 digits writes, if it lies in the range.
pub fn number_in(least: u32, most: u32, text: &[u8]) -> Option<u32>
    ensures { result ≡ number_in least most text.now }
{
    if !are_digits(text) {
        return None;
    }
    let number = value_of_digits(text);
    if u64::from(least) <= number && number <= u64::from(most) {
        Some(number as u32)
    } else {
        None
    }
}

fn are_digits(text: &[u8]) -> bool
    ensures { result ≡ are_digits text.now }
{
    1 <= text.len() && text.len() <= 10 && all_digits(text)
}

fn all_digits(text: &[u8]) -> bool
    ensures { result ≡ list_all is_digit text.now }
{
    text.iter().all(|byte| byte.is_ascii_digit())
}

fn value_of_digits(digits: &[u8]) -> u64
    requires all { IsTrue (list_all is_digit digits.now) }
    requires few { length digits.now ≤ 10 }
    ensures { result ≡ value_of_digits digits.now }
{
    let mut number = 0;
    for digit in digits {
        number = 10 * number + u64::from(*digit - b'0');
    }
    number
}
