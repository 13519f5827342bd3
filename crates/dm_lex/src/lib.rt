//! The tokens of SQL texts, and the values of literals.
#![tactic(auto)]

mod byte;
mod closing;
mod hexadecimal;
mod lengths;
mod lexeme;
mod lexer;
mod lexing;
mod literals;
mod numeral;
mod string;
#[cfg(test)]
mod tests;
mod token;

pub use lexer::Lexer;
pub use lexing::tokens;
pub use literals::literal;
pub use token::{LexFault, Token, TokenKind};

/// The tokens of a text, in order.
pub type Tokens = dm_list::Sequence<Token>;
