ghost use Rattle.std.specs.Prelude.{◌≡◌, ◌≤◌, length};
ghost use Rattle.dm_route.specs.Patterns.{width, matches, matches_somewhere};
ghost use Rattle.dm_route.specs.Reaching.{IsReach};

use crate::Sign;
use crate::character::character_length;

/// How far the signs before the first run reach into a name.
#[derive(Clone, Copy)]
pub enum Reached<'a> {
    /// There is no run, and the signs are the whole name.
    Whole,
    /// A sign takes nothing, or there is no run and something is left.
    Nothing,
    /// The signs behind the run, and what is left of the name for it and them.
    Run(&'a [Sign], &'a [u8]),
}

/// Whether a name matches the signs.
pub fn matches(signs: &[Sign], name: &[u8]) -> bool
    ensures { result ≡ matches signs.now name.now }
{
    match reach(signs, name) {
        Reached::Whole => true,
        Reached::Nothing => false,
        Reached::Run(behind, left) => matches_somewhere(behind, left),
    }
}

/// Whether what stands at some place of the name matches the signs. A run that was reached takes as little as it can
/// for good: what matches behind a later place matches behind the first as well. So a name takes at most as many steps
/// as it has bytes, times the signs.
fn matches_somewhere(signs: &[Sign], name: &[u8]) -> bool
    ensures { result ≡ matches_somewhere (matches signs.now) name.now }
{
    let mut signs = signs;
    let mut name = name;
    loop {
        match reach(signs, name) {
            Reached::Whole => return true,
            Reached::Run(behind, left) => {
                signs = behind;
                name = left;
            }
            Reached::Nothing => match name {
                [] => return false,
                [_, rest @ ..] => name = rest,
            },
        }
    }
}

/// Takes the signs before the first run from the front of a name.
fn reach<'a>(signs: &'a [Sign], name: &'a [u8]) -> Reached<'a>
    ensures { IsReach signs.now name.now result }
{
    let mut signs = signs;
    let mut left = name;
    while let [sign, behind @ ..] = signs {
        if let Sign::Run = sign {
            return Reached::Run(behind, left);
        }
        let taken = width(*sign, left);
        if taken == 0 {
            return Reached::Nothing;
        }
        left = &left[taken..];
        signs = behind;
    }
    if left.is_empty() {
        Reached::Whole
    } else {
        Reached::Nothing
    }
}

/// How many bytes a sign that isn't a run takes at the front; 0 where it takes none.
fn width(sign: Sign, name: &[u8]) -> usize
    ensures value { result ≡ width sign name.now }
    ensures within { result ≤ length name.now }
{
    match sign {
        Sign::Run => 0,
        Sign::Character => character_length(name),
        Sign::Byte(byte) => match name {
            [first, ..] if *first == byte => 1,
            _ => 0,
        },
    }
}
