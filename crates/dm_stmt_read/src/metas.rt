ghost use Rattle.std.specs.Prelude.{[]};
ghost use Rattle.dm_stmt_read.specs.Readers.{Reads, further};
ghost use Rattle.dm_stmt_read.specs.Lines.{pair, meta, next_meta};

use crate::RecordFault;
use crate::left::Left;
use crate::ops::head;
use dm_list::Sequence;
use dm_target::Meta;
use std::alloc::Global;

/// A name and its text, behind the bracket.
#[tactic(auto, unfolding(crate::specs::Lines::pair))]
fn pair(alloc: Global, left: &mut Left<'_>) -> Result<Meta, RecordFault>
    ensures { Reads pair left.old result left.new }
{
    let name = left.string(alloc)?;
    left.expect(b",")?;
    let text = left.string(alloc)?;
    left.expect(b");\n")?;
    Ok(Meta { name, text })
}

/// A text under a name.
#[tactic(auto, unfolding(crate::specs::Lines::meta))]
fn meta(alloc: Global, left: &mut Left<'_>) -> Result<Meta, RecordFault>
    ensures { Reads meta left.old result left.new }
{
    head(alloc, left)?;
    left.expect(b" (`name`,`text`) VALUES (")?;
    pair(alloc, left)
}

/// One more text, up to the end of the transaction.
#[tactic(auto, unfolding(crate::specs::Lines::next_meta))]
fn next_meta(alloc: Global, left: &mut Left<'_>) -> Result<Option<Meta>, RecordFault>
    ensures { Reads next_meta left.old result left.new }
{
    if left.accept(b"COMMIT;\n") {
        Ok(None)
    } else {
        Ok(Some(meta(alloc, left)?))
    }
}

/// All texts of a transaction. Each takes a byte at least.
#[tactic(auto, using(crate::proofs::Loops::begins))]
pub fn metas(alloc: Global, left: &mut Left<'_>) -> Result<Sequence<Meta>, RecordFault>
    ensures { Reads (further next_meta []) left.old result left.new }
{
    let mut pairs = Vec::new(alloc);
    for _ in 0..left.len() {
        match next_meta(alloc, left)? {
            Some(pair) => pairs.push(pair)?,
            None => break,
        }
    }
    Ok(Sequence::new(pairs))
}
