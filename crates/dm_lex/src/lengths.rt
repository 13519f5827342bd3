ghost use Rattle.std.specs.Prelude.{◌≡◌, ◌≤◌, length};
ghost use Rattle.std.specs.List.{prefix_len, list_all};
ghost use Rattle.dm_lex.specs.Lexemes.{is_hex_digit, is_word_byte, digits_length, number_length, is_hex};

use crate::byte::{has_at, is_digit, is_hex_digit, is_word_byte};

pub fn digits_length(text: &[u8]) -> usize
    ensures value { result ≡ digits_length text.now }
    ensures within { result ≤ length text.now }
{
    text.iter().take_while(|byte| is_digit(**byte)).count()
}

pub fn hex_digits_length(text: &[u8]) -> usize
    ensures value { result ≡ prefix_len is_hex_digit text.now }
    ensures within { result ≤ length text.now }
{
    text.iter().take_while(|byte| is_hex_digit(**byte)).count()
}

pub fn word_length(text: &[u8]) -> usize
    ensures value { result ≡ prefix_len is_word_byte text.now }
    ensures within { result ≤ length text.now }
{
    text.iter().take_while(|byte| is_word_byte(**byte)).count()
}

/// How many bytes a number has: digits, and a point with digits or none behind it, if there is a point.
pub fn number_length(text: &[u8]) -> usize
    ensures { result ≡ number_length text.now }
{
    let whole = digits_length(text);
    if has_at(text, whole, b'.') {
        whole + 1 + digits_length(&text[whole + 1..])
    } else {
        whole
    }
}

/// Whether bytes are pairs of hexadecimal digits.
pub fn is_hex(digits: &[u8]) -> bool
    ensures { result ≡ is_hex digits.now }
{
    digits.len() % 2 == 0 && all_hex_digits(digits)
}

pub fn all_hex_digits(bytes: &[u8]) -> bool
    ensures { result ≡ list_all is_hex_digit bytes.now }
{
    bytes.iter().all(|byte| is_hex_digit(*byte))
}
