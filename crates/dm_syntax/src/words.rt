ghost use Rattle.std.specs.Prelude.{◌≡◌, ◌<◌, map, IfOk, OnOk};
ghost use Rattle.dm_lex.specs.Literals.{lower};
ghost use Rattle.dm_syntax.specs.Words.{entry_of, terminal_among, terminal_of_word};

use crate::terminal;
use dm_grammar::Kind;
use std::alloc::{AllocError, Global};

/// A word that the grammar knows, in lower case, and what the grammar sees of it.
pub struct KeyWord<'a> {
    pub word: &'a [u8],
    pub kind: Kind,
}

/// What the grammar sees of a word, whose letters' case doesn't count.
pub fn terminal_of_word(alloc: Global, bytes: &[u8]) -> Result<Kind, AllocError>
    ensures { IfOk result (λ kind. kind ≡ terminal_of_word bytes.now) }
{
    let word = in_lower_case(alloc, bytes)?;
    Ok(terminal_among(&KEY_WORDS, &word))
}

fn terminal_among(words: &[KeyWord<'_>], word: &[u8]) -> Kind
    ensures { result ≡ terminal_among (map entry_of words.now) word.now }
{
    let [key, rest @ ..] = words else {
        return terminal::OTHER_WORD;
    };
    if *key.word == *word {
        key.kind
    } else {
        terminal_among(rest, word)
    }
}

/// Bytes with ASCII letters in lower case.
pub fn in_lower_case(alloc: Global, bytes: &[u8]) -> Result<Vec<u8>, AllocError>
    ensures { IfOk result (λ lowered. lowered.items ≡ map lower bytes.now) }
{
    bytes.iter().map(|byte| lower(*byte)).collect(alloc)
}

fn lower(byte: u8) -> u8
    ensures { result ≡ lower byte }
{
    if 65 <= byte && byte <= 90 {
        byte + 32
    } else {
        byte
    }
}

macro_rules! key_word {
    ($word:literal, $kind:ident) => {
        KeyWord {
            word: $word,
            kind: terminal::$kind,
        }
    };
}

const KEY_WORDS: [KeyWord<'static>; 102] = [
    key_word!(b"_binary", INTRODUCER),
    key_word!(b"_utf8", INTRODUCER),
    key_word!(b"_utf8mb3", INTRODUCER),
    key_word!(b"_utf8mb4", INTRODUCER),
    key_word!(b"add", ADD),
    key_word!(b"after", AFTER),
    key_word!(b"algorithm", OPTION),
    key_word!(b"alter", ALTER),
    key_word!(b"as", AS),
    key_word!(b"asc", ASC),
    key_word!(b"ascii", CHARACTER_SET),
    key_word!(b"auto_increment", AUTO_INCREMENT),
    key_word!(b"bigint", BIGINT),
    key_word!(b"binary", BINARY),
    key_word!(b"blob", BLOB),
    key_word!(b"bool", BOOL),
    key_word!(b"boolean", BOOL),
    key_word!(b"btree", BTREE),
    key_word!(b"change", CHANGE),
    key_word!(b"char", CHAR),
    key_word!(b"character", CHARACTER),
    key_word!(b"charset", CHARSET),
    key_word!(b"check", CHECK),
    key_word!(b"collate", COLLATE),
    key_word!(b"column", COLUMN),
    key_word!(b"column_format", STORAGE),
    key_word!(b"comment", COMMENT),
    key_word!(b"constraint", CONSTRAINT),
    key_word!(b"create", CREATE),
    key_word!(b"current_timestamp", NOW),
    key_word!(b"date", DATE),
    key_word!(b"datetime", DATETIME),
    key_word!(b"dec", DECIMAL),
    key_word!(b"decimal", DECIMAL),
    key_word!(b"default", DEFAULT),
    key_word!(b"delete", ROW_WORD),
    key_word!(b"desc", ASC),
    key_word!(b"drop", DROP),
    key_word!(b"engine", OPTION),
    key_word!(b"exists", EXISTS),
    key_word!(b"false", TRUTH),
    key_word!(b"first", FIRST),
    key_word!(b"force", FORCE),
    key_word!(b"foreign", FOREIGN),
    key_word!(b"fulltext", FULLTEXT),
    key_word!(b"generated", GENERATED),
    key_word!(b"hash", BTREE),
    key_word!(b"if", IF),
    key_word!(b"index", INDEX),
    key_word!(b"insert", ROW_WORD),
    key_word!(b"int", INT),
    key_word!(b"integer", INT),
    key_word!(b"invisible", VISIBLE),
    key_word!(b"key", KEY),
    key_word!(b"like", LIKE),
    key_word!(b"load", ROW_WORD),
    key_word!(b"localtime", NOW),
    key_word!(b"localtimestamp", NOW),
    key_word!(b"lock", OPTION),
    key_word!(b"longblob", LONGBLOB),
    key_word!(b"longtext", LONGTEXT),
    key_word!(b"mediumblob", MEDIUMBLOB),
    key_word!(b"mediumint", MEDIUMINT),
    key_word!(b"mediumtext", MEDIUMTEXT),
    key_word!(b"modify", MODIFY),
    key_word!(b"not", NOT),
    key_word!(b"now", NOW),
    key_word!(b"null", NULL),
    key_word!(b"numeric", DECIMAL),
    key_word!(b"on", ON),
    key_word!(b"partition", PARTITION),
    key_word!(b"primary", PRIMARY),
    key_word!(b"references", GENERATED),
    key_word!(b"rename", RENAME),
    key_word!(b"replace", ROW_WORD),
    key_word!(b"select", SELECT),
    key_word!(b"set", SET),
    key_word!(b"signed", SIGNED),
    key_word!(b"smallint", SMALLINT),
    key_word!(b"spatial", FULLTEXT),
    key_word!(b"storage", STORAGE),
    key_word!(b"table", TABLE),
    key_word!(b"text", TEXT),
    key_word!(b"timestamp", TIMESTAMP),
    key_word!(b"tinyblob", TINYBLOB),
    key_word!(b"tinyint", TINYINT),
    key_word!(b"tinytext", TINYTEXT),
    key_word!(b"to", TO),
    key_word!(b"true", TRUTH),
    key_word!(b"truncate", TRUNCATE),
    key_word!(b"unique", UNIQUE),
    key_word!(b"unsigned", UNSIGNED),
    key_word!(b"update", UPDATE),
    key_word!(b"using", USING),
    key_word!(b"utf8", CHARACTER_SET),
    key_word!(b"utf8mb3", CHARACTER_SET),
    key_word!(b"utf8mb4", CHARACTER_SET),
    key_word!(b"varbinary", VARBINARY),
    key_word!(b"varchar", VARCHAR),
    key_word!(b"visible", VISIBLE),
    key_word!(b"year", YEAR),
    key_word!(b"zerofill", UNSIGNED),
];
