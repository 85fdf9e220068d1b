//! Whether tokens name modes.

ghost use Rattle.std.specs.Prelude.{◌≡◌, IfOk};
ghost use Rattle.unread_parts.specs.Unread.{has_modes};

use aadl_syntax::{TokenList, TokenRef};
use grammar_rules::{ReadError, Reader, Span, is_word};
use plain_values::Mem;
use std::alloc::{AllocError, Global};

// The tokens before the word `modes` behind the word `in`.
struct Modes;

impl Span for Modes {
    ghost use Rattle.unread_parts.specs.Unread.{ends_modes};

    ghost stops = { ends_modes };

    #[tactic(auto, unfolding(crate::specs::Unread::ends_modes))]
    fn stops_at(before: Option<TokenRef>, token: &TokenRef) -> bool {
        match before {
            Some(before) => is_word(&before, b"in") && is_word(token, b"modes"),
            None => false,
        }
    }
}

/// Whether `in modes` stands outside of brackets in these tokens.
pub(crate) fn has_modes(alloc: Global, tokens: &TokenList) -> Mem<bool>
    ensures { IfOk result (λ answer. answer ≡ has_modes tokens.now) }
{
    let mut reader = Reader::new(alloc, 0, tokens);
    match reader.until::<Modes>() {
        Ok(_) => Ok(true),
        Err(ReadError::Refused) => Ok(false),
        Err(ReadError::Memory) => Err(AllocError),
    }
}
