ghost use Rattle.std.specs.Prelude.{◌≡◌, ◌<◌, length, drop, IsTrue};
ghost use Rattle.dm_lex.specs.Lexemes.{is_blank, is_digit, is_hex_digit, begins_word, is_word_byte, at_front, starts};

/// Blank, tab, line feed, carriage return.
fn is_blank(byte: u8) -> bool
    ensures { result ≡ is_blank byte }
{
    matches!(byte, b' ' | b'\t' | b'\n' | b'\r')
}

pub fn is_digit(byte: u8) -> bool
    ensures { result ≡ is_digit byte }
{
    b'0' <= byte && byte <= b'9'
}

pub fn is_hex_digit(byte: u8) -> bool
    ensures { result ≡ is_hex_digit byte }
{
    is_digit(byte) || b'A' <= byte && byte <= b'F' || b'a' <= byte && byte <= b'f'
}

/// Letters, `_`, `$` and bytes that aren't ASCII.
fn begins_word(byte: u8) -> bool
    ensures { result ≡ begins_word byte }
{
    b'A' <= byte && byte <= b'Z'
        || b'a' <= byte && byte <= b'z'
        || byte == b'_'
        || byte == b'$'
        || 0x80 <= byte
}

pub fn is_word_byte(byte: u8) -> bool
    ensures { result ≡ is_word_byte byte }
{
    begins_word(byte) || is_digit(byte)
}

/// Whether the byte at a place is this one.
pub fn has_at(text: &[u8], place: usize, byte: u8) -> bool
    ensures value { result ≡ starts byte (drop place text.now) }
    ensures within { IsTrue result → place < length text.now }
{
    match text.get(place) {
        Some(other) => *other == byte,
        None => false,
    }
}

pub fn has_blank_at(text: &[u8], place: usize) -> bool
    ensures value { result ≡ at_front is_blank (drop place text.now) }
    ensures within { IsTrue result → place < length text.now }
{
    match text.get(place) {
        Some(byte) => is_blank(*byte),
        None => false,
    }
}

pub fn has_digit_at(text: &[u8], place: usize) -> bool
    ensures value { result ≡ at_front is_digit (drop place text.now) }
    ensures within { IsTrue result → place < length text.now }
{
    match text.get(place) {
        Some(byte) => is_digit(*byte),
        None => false,
    }
}

pub fn has_hex_digit_at(text: &[u8], place: usize) -> bool
    ensures value { result ≡ at_front is_hex_digit (drop place text.now) }
    ensures within { IsTrue result → place < length text.now }
{
    match text.get(place) {
        Some(byte) => is_hex_digit(*byte),
        None => false,
    }
}

/// Whether a word may begin at a place.
pub fn has_word_at(text: &[u8], place: usize) -> bool
    ensures value { result ≡ at_front begins_word (drop place text.now) }
    ensures within { IsTrue result → place < length text.now }
{
    match text.get(place) {
        Some(byte) => begins_word(*byte),
        None => false,
    }
}
