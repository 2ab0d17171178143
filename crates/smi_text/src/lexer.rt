//! The lexer of SMIv2 module texts (RFC 2578, section 3), the first step of reading a module. The
//! parser reads its tokens.

mod class;
mod lanes;
mod lexer;
mod scan;
mod token;

pub use lexer::{Lexer, one_token_list};
pub use token::{LexError, Span, Token, TokenKind};
