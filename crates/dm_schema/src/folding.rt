ghost use Rattle.std.specs.Prelude.{◌≡◌, not};
ghost use Rattle.std.specs.List.{list_any};
ghost use Rattle.dm_schema.specs.Kinds.{is_between, is_folded};

/// Whether a name has no ASCII capital letter. Names of columns and keys are kept so, since they don't differ by case.
pub fn is_folded(name: &[u8]) -> bool
    ensures { result ≡ is_folded name.now }
{
    !has_capital(name)
}

fn has_capital(name: &[u8]) -> bool
    ensures { result ≡ list_any (is_between 65 90) name.now }
{
    name.iter().any(|byte| 65 <= *byte && *byte <= 90)
}
