ghost use Rattle.std.specs.Prelude.{◌≡◌, [], ◌∷◌, ◌++◌, OnOk};
ghost use Rattle.json.specs.Token.{key as key_token, number as number_token};
ghost use Rattle.std.specs.Fmt.{decimal};

use json::Writer;
use std::alloc::AllocError;

/// The version of the records that are written, and that alone are read.
pub(crate) const VERSION: u64 = 1;

/// A member of an object that is a whole number.
pub(crate) fn put_number(out: &mut Writer, key: &str, number: u64) -> Result<(), AllocError>
    ensures tokens { OnOk result (out.new.tokens
        ≡ out.old.tokens ++ key_token key.now ∷ number_token (decimal number) ∷ []) }
    ensures before { out.new.before ≡ out.old.before }
{
    out.key(key)?;
    out.u64(number)
}
