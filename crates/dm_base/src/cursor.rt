ghost use Rattle.std.specs.Prelude.{◌≡◌, ◌≤◌, length};
ghost use Rattle.std.specs.Option.{option_map};
ghost use Rattle.dm_base.specs.Reading.{Gives, Reads, left_of, piece, le, be, lenenc};

use byteorder::{BigEndian, ByteOrder, LittleEndian};
use std::marker::Model;

/// A place in bytes, from which numbers and pieces are read one after another.
#[derive(Drop)]
pub struct Cursor<'a> {
    bytes: &'a [u8],
    place: usize,
}

impl<'a> Model for Cursor<'a> {
    ghost use Rattle.std.specs.Prelude.{◌≤◌, length};
    ghost use Rattle.dm_base.specs.Reading.{Reading};

    ghost Value = { Reading };

    ghost view = { λ c. record { bytes = c.bytes.now; place = c.place } };

    ghost invariant = { λ c. c.place ≤ length c.bytes.now };
}

impl<'a> Cursor<'a> {
    #[inline]
    pub fn new(bytes: &'a [u8]) -> Cursor<'a>
        ensures { result ≡ record { bytes = bytes.now; place = 0 } }
    {
        Cursor { bytes, place: 0 }
    }

    /// How many bytes were read.
    #[inline]
    pub fn place(&self) -> u64
        ensures { result ≡ self.now.place }
    {
        self.place as u64
    }

    /// The bytes that weren't read.
    #[inline]
    pub fn left(&self) -> &'a [u8]
        ensures { result.now ≡ left_of self.now }
    {
        &self.bytes[self.place..]
    }

    /// The next bytes; `None` where there aren't so many.
    #[inline]
    pub fn take(&mut self, count: u64) -> Option<&'a [u8]>
        ensures { Reads (piece count) self.old (option_map (λ p. p.now) result) self.new }
    {
        if count > (self.bytes.len() - self.place) as u64 {
            return None;
        }
        let end = self.place + count as usize;
        let piece = &self.bytes[self.place..end];
        self.place = end;
        Some(piece)
    }

    /// A number of 1 to 8 bytes, the lowest first.
    #[inline]
    pub fn le(&mut self, width: u8) -> Option<u64>
        requires wide { 1 ≤ width }
        requires narrow { width ≤ 8 }
        ensures { Reads (le width) self.old result self.new }
    {
        let bytes = self.take(u64::from(width))?;
        Some(LittleEndian::read_uint(bytes, bytes.len()))
    }

    /// A number of 1 to 8 bytes, the highest first.
    #[inline]
    pub fn be(&mut self, width: u8) -> Option<u64>
        requires wide { 1 ≤ width }
        requires narrow { width ≤ 8 }
        ensures { Reads (be width) self.old result self.new }
    {
        let bytes = self.take(u64::from(width))?;
        Some(BigEndian::read_uint(bytes, bytes.len()))
    }

    /// A length-encoded number of MySQL's protocol. `None` also where it begins with 251 or 255.
    pub fn lenenc(&mut self) -> Option<u64>
        ensures { Reads lenenc self.old result self.new }
    {
        let place = self.place;
        let number = self.lenenc_or_lost();
        if number.is_none() {
            self.place = place;
        }
        number
    }

    /// A length-encoded number, or a place somewhere behind its first bytes.
    fn lenenc_or_lost(&mut self) -> Option<u64>
        ensures value { Gives lenenc self.old result self.new }
        ensures bytes { self.new.bytes ≡ self.old.bytes }
    {
        match self.le(1)? {
            number @ 0..=250 => Some(number),
            252 => self.le(2),
            253 => self.le(3),
            254 => self.le(8),
            _ => None,
        }
    }
}
