ghost use Rattle.std.specs.Prelude.{◌≡◌, Ok, true, IsTrue};
ghost use Rattle.dm_schema.specs.Kinds.{is_kind};
ghost use Rattle.dm_schema.specs.Fits.{fits_by};
ghost use Rattle.dm_text.specs.Names.{quoted};
ghost use Rattle.dm_text.specs.Columns.{create_text};
ghost use Rattle.dm_lex.specs.Tokens.{tokens_of};
ghost use Rattle.dm_reread.specs.Parts.{name_item, create_parts};
ghost use Rattle.dm_reread.specs.Read.{HasTokens, IsReread};

use crate::bytes::{column_bytes, value_bytes};
use dm_schema::{Kind, Schema};
use dm_value::{Name, Value};

/// The text of a value that fits a kind is read as the value.
pub fn law_of_values(kind: Kind, value: &Value)
    requires formed { IsTrue (is_kind kind) }
    requires fits { IsTrue (fits_by kind true value.now) }
    ensures { IsReread kind value.now }
{
    value_bytes(value);
}

/// The CREATE TABLE of a schema has the tokens of its parts.
pub fn law_of_creates(name: &Name, schema: &Schema)
    ensures { HasTokens (create_text (quoted name.now) schema.now) (create_parts (name_item name.now) schema.now) }
{
    column_bytes(schema.columns());
}
