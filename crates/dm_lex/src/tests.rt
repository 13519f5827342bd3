ghost use Rattle.std.specs.Prelude.{◌<◌, ◌^◌, length, IsTrue};
ghost use Rattle.dm_schema.specs.Kinds.{is_kind};

use crate::{LexFault, Lexer, Token, TokenKind, literal, tokens};
use dm_list::Bytes;
use dm_schema::Kind;
use dm_value::{Day, Dec, Moment, Stamp, Value};
use std::alloc::{AllocError, Global};
use std::test::Fail;

fn letter(kind: TokenKind) -> u8 {
    match kind {
        TokenKind::Word => b'W',
        TokenKind::Quoted => b'Q',
        TokenKind::Text => b'T',
        TokenKind::Hex => b'H',
        TokenKind::Number => b'N',
        TokenKind::Mark => b'M',
    }
}

/// Each token of a text: its kind, its bytes and a bar.
fn shown(alloc: Global, text: &[u8]) -> Result<Vec<u8>, Fail>
    requires { length text.now < 2 ^ 32 }
{
    let found = tokens(alloc, text)?;
    let mut shown = Vec::new(alloc);
    for token in found.as_slice() {
        shown.push(letter(token.kind))?;
        let bytes = text.get(token.from as usize..token.to as usize);
        shown.extend_from_slice(bytes.ok_or("a token outside the text")?)?;
        shown.push(b'|')?;
    }
    Ok(shown)
}

/// What the text can't be split for.
fn fault(alloc: Global, text: &[u8]) -> Option<LexFault>
    requires { length text.now < 2 ^ 32 }
{
    tokens(alloc, text).err()
}

#[test]
fn splits_a_text(rt: HostRuntime) -> Result<(), Fail> {
    let text =
        b"a1 `b``c` 'it''s' \"x\" x'4d' 0x4D 5. .5 1.2.3 -- c\n# d\n/* e */ /*/ f */ ( --\tz";
    let want = b"Wa1|Q`b``c`|T'it''s'|T\"x\"|Hx'4d'|H0x4D|N5.|N.5|N1.2|N.3|M(|M-|M-|Wz|";
    assert_eq!(rt; shown(rt.alloc(), text)?.as_slice(), want.as_slice());
    Ok(())
}

#[test]
fn splits_what_looks_alike(rt: HostRuntime) -> Result<(), Fail> {
    let text = b"0X41 x\"41\" 0x41g --x 'a\\'b' `c\\` a$\xc3\xa4_9 X'' /**/ -- \r\n--";
    let want = b"N0|WX41|Wx|T\"41\"|H0x41|Wg|M-|M-|Wx|T'a\\'b'|Q`c\\`|Wa$\xc3\xa4_9|HX''|";
    assert_eq!(rt; shown(rt.alloc(), text)?.as_slice(), want.as_slice());
    Ok(())
}

#[test]
fn finds_what_is_open(rt: HostRuntime) {
    let alloc = rt.alloc();
    assert_eq!(rt; fault(alloc, b"a 'b''"), Some(LexFault::Open { at: 2 }));
    assert_eq!(rt; fault(alloc, b"a, x'4"), Some(LexFault::Open { at: 3 }));
    assert_eq!(rt; fault(alloc, b"`a``"), Some(LexFault::Open { at: 0 }));
    assert_eq!(rt; fault(alloc, b" /* *"), Some(LexFault::Open { at: 1 }));
}

#[test]
fn finds_what_is_not_hexadecimal(rt: HostRuntime) {
    let alloc = rt.alloc();
    assert_eq!(rt; fault(alloc, b"x'4d' x'4'"), Some(LexFault::Hex { at: 6 }));
    assert_eq!(rt; fault(alloc, b" X'4g'"), Some(LexFault::Hex { at: 1 }));
}

/// The value of a text's last token, behind a minus if the first is one.
#[test]
fn gives_tokens_one_by_one(rt: HostRuntime) {
    let mut lexer = Lexer::new(b"a, b 'c", 2);
    let name = Token {
        kind: TokenKind::Word,
        from: 3,
        to: 4,
    };
    assert_eq!(rt; lexer.next_token(), Ok(Some(name)));
    assert_eq!(rt; lexer.next_token(), Err(LexFault::Open { at: 5 }));
    assert_eq!(rt; lexer.next_token(), Err(LexFault::Open { at: 5 }));
}

fn value(alloc: Global, text: &[u8], kind: Kind) -> Result<Option<Value>, Fail>
    requires text { length text.now < 2 ^ 32 }
    requires kind { IsTrue (is_kind kind) }
{
    let found = tokens(alloc, text)?;
    let token = found.as_slice().last().ok_or("no token")?;
    if token.from > token.to || token.to as usize > text.len() {
        return Err("a token outside the text")?;
    }
    let minus = text.first() == Some(&b'-');
    Ok(literal(alloc, text, token, minus, &kind)?)
}

fn bytes(alloc: Global, bytes: &[u8]) -> Result<Option<Value>, AllocError> {
    Ok(Some(Value::Bytes(Bytes::new(bytes.to_vec(alloc)?))))
}

#[test]
fn values_integers(rt: HostRuntime) -> Result<(), Fail> {
    let alloc = rt.alloc();
    assert_eq!(rt;
        value(alloc, b"0127", Kind::Signed(1))?,
        Some(Value::Int(127))
    );
    assert_eq!(rt;
        value(alloc, b"-128", Kind::Signed(1))?,
        Some(Value::Int(-128))
    );
    assert_eq!(rt; value(alloc, b"128", Kind::Signed(1))?, None);
    assert_eq!(rt; value(alloc, b"1.", Kind::Signed(1))?, None);
    Ok(())
}

#[test]
fn values_other_integers(rt: HostRuntime) -> Result<(), Fail> {
    let alloc = rt.alloc();
    assert_eq!(rt;
        value(alloc, b"'-5'", Kind::Signed(8))?,
        Some(Value::Int(-5))
    );
    assert_eq!(rt;
        value(alloc, b"TRUE", Kind::Unsigned(1))?,
        Some(Value::Int(1))
    );
    assert_eq!(rt; value(alloc, b"1900", Kind::Year)?, None);
    assert_eq!(rt;
        value(
            alloc,
            b"340282366920938463463374607431768211457",
            Kind::Unsigned(8)
        )?,
        None
    );
    Ok(())
}

fn decimal(digits: i128) -> Option<Value> {
    Some(Value::Dec(Dec { digits, scale: 2 }))
}

#[test]
fn values_decimals(rt: HostRuntime) -> Result<(), Fail> {
    let alloc = rt.alloc();
    assert_eq!(rt; value(alloc, b"1.500", Kind::Decimal(3, 2))?, decimal(150));
    assert_eq!(rt; value(alloc, b"1.505", Kind::Decimal(3, 2))?, None);
    assert_eq!(rt; value(alloc, b"- .05", Kind::Decimal(3, 2))?, decimal(-5));
    assert_eq!(rt; value(alloc, b"10.", Kind::Decimal(3, 2))?, None);
    Ok(())
}

#[test]
fn values_texts(rt: HostRuntime) -> Result<(), Fail> {
    let alloc = rt.alloc();
    assert_eq!(rt;
        value(alloc, b"'it''s\\n'", Kind::Varchar(5))?,
        bytes(alloc, b"it's\n")?
    );
    assert_eq!(rt;
        value(alloc, b"\"a  \"", Kind::Char(1))?,
        bytes(alloc, b"a")?
    );
    assert_eq!(rt;
        value(alloc, b"x'C3a4'", Kind::Text(1))?,
        bytes(alloc, b"\xc3\xa4")?
    );
    assert_eq!(rt; value(alloc, b"'ab'", Kind::Char(1))?, None);
    assert_eq!(rt; value(alloc, b"5", Kind::Varchar(5))?, None);
    Ok(())
}

#[test]
fn values_binaries(rt: HostRuntime) -> Result<(), Fail> {
    let alloc = rt.alloc();
    assert_eq!(rt;
        value(alloc, b"0x41", Kind::Binary(3))?,
        bytes(alloc, b"A\0\0")?
    );
    assert_eq!(rt;
        value(alloc, b"0x141", Kind::Varbinary(2))?,
        bytes(alloc, b"\x01A")?
    );
    assert_eq!(rt; value(alloc, b"x''", Kind::Blob(1))?, bytes(alloc, b"")?);
    assert_eq!(rt; value(alloc, b"0x41", Kind::Signed(8))?, None);
    Ok(())
}

#[test]
fn values_times(rt: HostRuntime) -> Result<(), Fail> {
    let alloc = rt.alloc();
    let day = Day {
        year: 2024,
        month: 2,
        day: 29,
    };
    assert_eq!(rt;
        value(alloc, b"'2024-02-29'", Kind::Date)?,
        Some(Value::Date(day))
    );
    let moment = Moment {
        day,
        hour: 1,
        minute: 2,
        second: 3,
        micros: 500_000,
    };
    assert_eq!(rt;
        value(alloc, b"'2024-02-29 01:02:03.5'", Kind::Datetime(1))?,
        Some(Value::Moment(moment))
    );
    let stamp = Stamp {
        seconds: 0x6592_0080,
        micros: 0,
    };
    assert_eq!(rt;
        value(alloc, b"'2024-01-01 00:00:00'", Kind::Timestamp(0))?,
        Some(Value::Stamp(stamp))
    );
    assert_eq!(rt; value(alloc, b"'2024-13-01'", Kind::Date)?, None);
    Ok(())
}

#[test]
fn values_words(rt: HostRuntime) -> Result<(), Fail> {
    let alloc = rt.alloc();
    assert_eq!(rt; value(alloc, b"nUlL", Kind::Date)?, Some(Value::Null));
    assert_eq!(rt; value(alloc, b"FALSE", Kind::Year)?, Some(Value::Int(0)));
    assert_eq!(rt; value(alloc, b"true", Kind::Varchar(5))?, None);
    assert_eq!(rt; value(alloc, b"nulls", Kind::Date)?, None);
    assert_eq!(rt; value(alloc, b"-'5'", Kind::Signed(1))?, None);
    Ok(())
}
