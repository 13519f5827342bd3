ghost use Rattle.std.specs.Prelude.{◌≡◌, IsTrue, IsFalse, IfOk};
ghost use Rattle.std.specs.List.{list_any};
ghost use Rattle.std.specs.Ordering.{eq_by_cmp};
ghost use Rattle.dm_schema.specs.Names.{name_cmp};
ghost use Rattle.dm_target.specs.Contents.{Content, effect, table_of, meta_of};
ghost use Rattle.dm_target.specs.Reach.{touches, sets};

use crate::{Call, Meta};
use dm_schema::TableName;

impl Call {
    /// Whether the call is about a table. It then sets no text, and leaves all other tables.
    pub fn touches(&self, table: &TableName) -> bool
        ensures value { result ≡ touches self.now table.now }
        ensures other { IsFalse result → (before : Content) → IfOk (effect self.now before) (λ left. table_of left table.now ≡ table_of before table.now) }
        ensures texts { IsTrue result → (before : Content) → IfOk (effect self.now before) (λ left. left.metas ≡ before.metas) }
    {
        match self {
            Call::Create { table: own, .. }
            | Call::Alter { table: own, .. }
            | Call::Apply { table: own, .. } => table.cmp(own).is_eq(),
            Call::Metas { .. } => false,
        }
    }

    /// Whether the call gives a name a text. All other texts stay.
    pub fn sets(&self, name: &[u8]) -> bool
        ensures value { result ≡ sets self.now name.now }
        ensures other { IsFalse result → (before : Content) → IfOk (effect self.now before) (λ left. meta_of left name.now ≡ meta_of before name.now) }
    {
        match self {
            Call::Metas { pairs } => has_name(pairs.as_slice(), name),
            Call::Create { .. } | Call::Alter { .. } | Call::Apply { .. } => false,
        }
    }
}

fn has_name(pairs: &[Meta], name: &[u8]) -> bool
    ensures { result ≡ list_any (λ pair. eq_by_cmp name_cmp name.now pair.name) pairs.now }
{
    for pair in pairs {
        if name.cmp(pair.name.as_slice()).is_eq() {
            return true;
        }
    }
    false
}
