ghost use Rattle.std.specs.Prelude.{◌≡◌, ◌≤◌, length, IsTrue};
ghost use Rattle.dm_route.specs.Characters.{lies_in, character_length};

/// The bytes that may stand behind the first of a character.
const FOLLOWING: (u8, u8) = (0x80, 0xBF);

/// How many bytes the character at the front has; 0 where there is none.
#[tactic(auto, unfolding(crate::specs::Characters::character_length))]
pub fn character_length(name: &[u8]) -> usize
    ensures value { result ≡ character_length name.now }
    ensures within { result ≤ length name.now }
{
    if lies_in(name, &[(0x00, 0x7F)]) {
        1
    } else if lies_in(name, &[(0xC2, 0xDF), FOLLOWING]) {
        2
    } else if lies_in(name, &[(0xE0, 0xE0), (0xA0, 0xBF), FOLLOWING]) {
        3
    } else if lies_in(name, &[(0xE1, 0xEC), FOLLOWING, FOLLOWING]) {
        3
    } else if lies_in(name, &[(0xED, 0xED), (0x80, 0x9F), FOLLOWING]) {
        3
    } else if lies_in(name, &[(0xEE, 0xEF), FOLLOWING, FOLLOWING]) {
        3
    } else if lies_in(name, &[(0xF0, 0xF0), (0x90, 0xBF), FOLLOWING, FOLLOWING]) {
        4
    } else if lies_in(name, &[(0xF1, 0xF3), FOLLOWING, FOLLOWING, FOLLOWING]) {
        4
    } else if lies_in(name, &[(0xF4, 0xF4), (0x80, 0x8F), FOLLOWING, FOLLOWING]) {
        4
    } else {
        0
    }
}

/// Whether the bytes at the front lie between these, each between its own least and greatest.
#[tactic(auto, unfolding(crate::specs::Characters::lies_in))]
fn lies_in(name: &[u8], bounds: &[(u8, u8)]) -> bool
    ensures value { result ≡ lies_in name.now bounds.now }
    ensures within { IsTrue result → length bounds.now ≤ length name.now }
{
    match bounds {
        [] => true,
        [(least, greatest), others @ ..] => match name {
            [] => false,
            [first, rest @ ..] => {
                *least <= *first && *first <= *greatest && lies_in(rest, others)
            }
        },
    }
}
