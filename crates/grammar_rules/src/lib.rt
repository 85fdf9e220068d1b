//! Grammar rules, and the reader with which parsers read by them.
//!
//! A grammar is written down as rules, in `specs/`: what the tokens must be, and the value that they give. A parser is
//! one function a rule over a [`Reader`], and its contract says that it gives what the rule gives. What holds of all
//! rules is proved once: tokens read as one value at most, and a refusal rests on the tokens that were looked at alone.
#![tactic(auto)]

mod part;
mod reader;
mod span;
mod text;

pub use part::{Gathered, Parts};
pub use reader::{ReadError, Reader, is_one_of, is_sign, is_word, spot};
pub use span::{Balanced, Span, Tail, ToEnd, closes, tail_end, tail_end_inside};
pub use text::{Grammar, one_reading, read_text, token_place};
