use plain_values::{Name, Word};

/// What a token is: a word, a number, a quoted text, a sign, or a part of an annex.
#[derive(Clone, Copy, PartialEq, Eq)]
pub enum TokenKind {
    /// A letter, then letters, digits and single underscores; the token's text is folded to lower case.
    Word,
    /// A decimal or a based number; its text is unchanged.
    Number,
    /// A text in quotes, which belong to it.
    Text,
    /// A sign of one to three bytes.
    Sign,
    /// The `{**` that begins an annex.
    AnnexBegin,
    /// The body of an annex that is not of the error model, as one token.
    AnnexRaw,
    /// The `**}` that ends an annex.
    AnnexEnd,
}

/// A token of a text: its bytes are those from `start` up to and without `end`, numbered from 0.
#[derive(Drop)]
pub struct Token {
    pub kind: TokenKind,
    pub start: u32,
    pub end: u32,
    pub text: Name,
}

/// A token as a look at a list of tokens shows it.
#[derive(Clone, Copy)]
pub struct TokenRef<'a> {
    pub kind: TokenKind,
    pub start: u32,
    pub end: u32,
    pub text: &'a [u8],
}
