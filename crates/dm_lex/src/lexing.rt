ghost use Rattle.std.specs.Prelude.{◌≡◌, ◌<◌, ◌^◌, length};
ghost use Rattle.dm_list.specs.Answer.{Answers};
ghost use Rattle.dm_lex.specs.Tokens.{is_memory, tokens_of};

use crate::{LexFault, Lexer, Tokens};
use std::alloc::Global;

/// The tokens of a text, in order. Blanks and comments are passed over. A fault is the first: of what stands before it
/// all is a token, a blank or a comment.
pub fn tokens(alloc: Global, text: &[u8]) -> Result<Tokens, LexFault>
    requires { length text.now < 2 ^ 32 }
    ensures { Answers is_memory result (tokens_of text.now) }
{
    let mut made = Vec::new(alloc);
    let mut lexer = Lexer::new(text, 0);
    loop {
        match lexer.next_token() {
            Ok(Some(token)) => made.push(token)?,
            Ok(None) => return Ok(Tokens::new(made)),
            Err(fault) => return Err(fault),
        }
    }
}
