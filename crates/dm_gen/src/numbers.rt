ghost use Rattle.std.specs.Prelude.{◌≡◌};
ghost use Rattle.dm_gen.specs.Numbers.{next_number};

/// The number behind x.
pub fn next_number(x: u64) -> u64
    ensures { result ≡ next_number x }
{
    let first = x ^ (x << 13);
    let second = first ^ (first >> 7);
    second ^ (second << 17)
}
