//! The tokens of an AADL file.
//!
//! A file is cut into the longest forms at each place: blanks and comments, which give no token, words, numbers, quoted
//! texts and signs. `{**` begins an annex, which the first `**}` after it ends; the text of an error model annex is cut in
//! the same way, and that of any other annex is one token.
#![tactic(auto)]

mod byte;
mod form;
mod laws;
mod lexer;

pub use byte::{is_blank, is_digit, is_letter, is_letter_or_digit};
pub use form::{digits_len, number_len};
pub use laws::{one_fault, one_list};
pub use lexer::tokens;
