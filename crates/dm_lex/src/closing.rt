ghost use Rattle.std.specs.Prelude.{◌≡◌, ◌≤◌, ◌&&◌, ◌==◌, length, IfSome, Some, None, if◌then◌else◌};
ghost use Rattle.std.specs.List.{position, position_or_len};
ghost use Rattle.dm_lex.specs.Lexemes.{closed_length, comment_length, line_length};

/// How many bytes there are behind an opening quote up to its closing one, which counts: a doubled quote doesn't close,
/// nor, with `escapes`, one behind a backslash.
pub fn closed_length(text: &[u8], quote: u8, escapes: bool) -> Option<usize>
    ensures value { result ≡ closed_length (λ b. escapes && b == 92) quote text.now }
    ensures within { IfSome result (λ n. n ≤ length text.now) }
{
    let mut length = 0;
    let mut rest = text;
    while let [first, second, ..] = rest {
        let Some(step) = step_over(*first, *second, quote, escapes) else {
            return Some(length + 1);
        };
        length += step;
        rest = &rest[step..];
    }
    match rest {
        [last] if *last == quote => Some(length + 1),
        _ => None,
    }
}

/// How many bytes the first of two takes: two, where it is an escape or the quotes are doubled. None, where it closes.
fn step_over(first: u8, second: u8, quote: u8, escapes: bool) -> Option<usize>
    ensures value { result
        ≡ (if escapes && first == 92 then Some 2 else if first == quote then (if second == quote then Some 2 else None) else Some 1) }
    ensures few { IfSome result (λ step. (1 ≤ step) × (step ≤ 2)) }
{
    if escapes && first == b'\\' {
        Some(2)
    } else if first != quote {
        Some(1)
    } else if second == quote {
        Some(2)
    } else {
        None
    }
}

/// How many bytes a comment has behind its opening, up to the first star with a slash behind it.
pub fn comment_length(text: &[u8]) -> Option<usize>
    ensures value { result ≡ comment_length text.now }
    ensures within { IfSome result (λ n. n ≤ length text.now) }
{
    let mut length = 0;
    let mut rest = text;
    while let [first, second, ..] = rest {
        if *first == b'*' && *second == b'/' {
            return Some(length + 2);
        }
        length += 1;
        rest = &rest[1..];
    }
    None
}

/// How many bytes there are up to the line's end.
pub fn line_length(text: &[u8]) -> usize
    ensures value { result ≡ line_length text.now }
    ensures within { result ≤ length text.now }
{
    text.iter().take_while(|byte| **byte != b'\n').count()
}

/// Where the first single quote stands.
pub fn place_of_quote(text: &[u8]) -> Option<usize>
    ensures { result ≡ position (λ b. b == 39) text.now }
{
    text.iter().position(|byte| *byte == b'\'')
}
