ghost use Rattle.std.specs.Prelude.{◌+◌, ◌≤◌, vec_len, IfOk};
ghost use Rattle.dm_base.specs.Outside.{IsFront};

use std::alloc::Global;
use std::io;
use std::io::Read;

/// The first `most + 1` bytes that the reader has left, or all of them where there are fewer. It is read no further.
pub fn read_front<R: Read + Drop>(alloc: Global, reader: R, most: u32) -> io::Result<Vec<u8>>
    ensures front { IfOk result (λ front. IsFront (R.remaining reader) most front.items) }
    ensures within { IfOk result (λ front. vec_len front ≤ most + 1) }
{
    let wanted = u64::from(most) + 1;
    let mut front = Vec::new(alloc);
    reader.take(wanted).read_to_end(&mut front)?;
    // Cuts nothing: `take` lets no more through.
    front.truncate(wanted as usize);
    Ok(front)
}
