ghost use Rattle.std.specs.Prelude.{◌≡◌, ◌<◌, ◌^◌, length, IfOk, IsTrue};
ghost use Rattle.std.specs.List.{list_all};
ghost use Rattle.dm_list.specs.Answer.{Answers};
ghost use Rattle.dm_schema.specs.Kinds.{is_kind};
ghost use Rattle.dm_schema.specs.Effect.{is_change, ddl_effect, joined_effect};
ghost use Rattle.dm_alter.specs.Answers.{is_memory};
ghost use Rattle.dm_ddl.specs.Defaults.{value_of_tokens, default_value_of};

use crate::columns::literal_of;
use dm_alter::DefaultReading;
use dm_lex::{LexFault, Token, tokens};
use dm_schema::{Change, EffectFault, Kind, Schema};
use dm_syntax::{bytes_of, terminal, terminal_of};
use dm_value::Value;
use std::alloc::{AllocError, Global};

/// Reads the texts of defaults as literals of SQL.
struct SqlDefaults;

impl DefaultReading for SqlDefaults {
    ghost reads = { λ _. default_value_of };

    fn value(&self, alloc: Global, kind: Kind, text: &[u8]) -> Result<Option<Value>, AllocError> {
        if text.len() > u32::MAX as usize {
            return Err(AllocError);
        }
        match tokens(alloc, text) {
            Ok(lexed) => value_of_tokens(alloc, text, kind, lexed.as_slice()),
            Err(LexFault::Memory) => Err(AllocError),
            Err(LexFault::Open { .. } | LexFault::Hex { .. }) => Ok(None),
        }
    }
}

fn value_of_tokens(
    alloc: Global,
    text: &[u8],
    kind: Kind,
    tokens: &[Token],
) -> Result<Option<Value>, AllocError>
    requires few { length text.now < 2 ^ 32 }
    requires kind { IsTrue (is_kind kind) }
    ensures { IfOk result (λ value. value ≡ value_of_tokens text.now kind tokens.now) }
{
    match tokens {
        [token] => literal_of(alloc, bytes_of(text, token), token, false, kind),
        [minus, token] => {
            if terminal_of(alloc, text, minus)? == terminal::MINUS {
                literal_of(alloc, bytes_of(text, token), token, true, kind)
            } else {
                Ok(None)
            }
        }
        _ => Ok(None),
    }
}

/// The schema after the changes of a statement, from left to right, or the first fault: of the first change that has
/// one, the first in the order of [`EffectFault`]. The text of a SET DEFAULT is read as a literal.
pub fn effect(alloc: Global, schema: &Schema, changes: &[Change]) -> Result<Schema, EffectFault>
    requires { IsTrue (list_all is_change changes.now) }
    ensures { Answers is_memory result (ddl_effect default_value_of schema.now changes.now) }
{
    dm_alter::effect(alloc, &SqlDefaults, schema, changes)
}

/// The same for a schema that may have any number of columns, as a join of schemas may.
pub fn effect_joined(
    alloc: Global,
    schema: &Schema,
    changes: &[Change],
) -> Result<Schema, EffectFault>
    requires { IsTrue (list_all is_change changes.now) }
    ensures { Answers is_memory result (joined_effect default_value_of schema.now changes.now) }
{
    dm_alter::effect_joined(alloc, &SqlDefaults, schema, changes)
}
