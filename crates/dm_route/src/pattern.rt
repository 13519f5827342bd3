ghost use Rattle.std.specs.Prelude.{◌≡◌, IfOk};
ghost use Rattle.dm_route.specs.Patterns.{signs_of, matches};

use crate::Sign;
use crate::matching::matches;
use crate::sign::signs_of;
use dm_list::Sequence;
use std::alloc::{AllocError, Global};
use std::marker::Model;

/// A pattern of names: `*` stands for any run of characters, `?` for one, and all else for itself.
#[derive(Debug, Drop)]
pub struct Pattern {
    signs: Sequence<Sign>,
}

impl Model for Pattern {
    ghost use Rattle.std.specs.Prelude.{List};
    ghost use Rattle.dm_route.specs.declared.sign.Sign.{Sign};

    ghost Value = { List Sign };

    ghost view = { λ pattern. pattern.signs };

    ghost inverse = { λ signs. record { signs = signs } };
}

impl Pattern {
    pub fn new(alloc: Global, text: &[u8]) -> Result<Pattern, AllocError>
        ensures { IfOk result (λ pattern. pattern ≡ signs_of text.now) }
    {
        Ok(Pattern {
            signs: Sequence::new(signs_of(alloc, text)?),
        })
    }

    /// Takes at most as many steps as the name has bytes, times the pattern's.
    pub fn matches(&self, name: &[u8]) -> bool
        ensures { result ≡ matches self.now name.now }
    {
        matches(self.signs.as_slice(), name)
    }
}
