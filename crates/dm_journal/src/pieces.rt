ghost use Rattle.std.specs.Prelude.{◌≡◌, ◌++◌, IfOk, OnOk};
ghost use Rattle.dm_time.specs.Written.{digits_of};
ghost use Rattle.dm_journal.specs.Framing.{framed};

use std::alloc::{AllocError, Global};

/// The bytes of the record with this text: a header that says its length, and the text.
pub(crate) fn framed(alloc: Global, text: &[u8]) -> Result<Vec<u8>, AllocError>
    ensures { IfOk result (λ piece. piece.items ≡ framed text.now) }
{
    let mut piece = Vec::new(alloc);
    piece.extend_from_slice(b"-- dm ")?;
    push_digits(&mut piece, text.len(), 10)?;
    piece.push(b'\n')?;
    piece.extend_from_slice(text)?;
    Ok(piece)
}

/// Adds the last so many digits of a number.
fn push_digits(out: &mut Vec<u8>, number: usize, count: u8) -> Result<(), AllocError>
    ensures { OnOk result (out.new.items ≡ out.old.items ++ digits_of count number) }
{
    if count > 0 {
        push_digits(out, number / 10, count - 1)?;
        out.push(b'0' + (number % 10) as u8)?;
    }
    Ok(())
}
