//! Tokens of a Galileo text, where they begin, and how long they are.

use property_reader::RateKind;

/// What a token is.
#[derive(Clone, Copy)]
pub(crate) enum Token {
    /// A name in quotes.
    Name,
    /// `toplevel`
    Toplevel,
    /// `and`
    And,
    /// `or`
    Or,
    /// So many digits, `of` and digits.
    Counts(usize),
    /// `lambda=` or `prob=`, and a number.
    Rate(RateKind),
    /// `dorm=` and a number, or another attribute that is read past.
    Dorm,
    /// A name without quotes.
    Bare,
    /// `vot` and digits.
    Votes,
    /// `lambda` or `prob`, `=` and a number, behind so many bytes of the token.
    Value(RateKind, usize),
    /// An attribute of another distribution, or one whose value is a parameter.
    Other,
    /// The word of a dynamic gate.
    Dynamic,
    /// `;`
    End,
}

/// The token that begins a text, and how many bytes it has.
#[derive(Clone, Copy)]
pub(crate) struct Front {
    pub token: Token,
    pub len: usize,
}

/// A token of a text: its first byte, from 0, and how many bytes it has.
#[derive(Clone, Copy)]
pub(crate) struct Mark {
    pub token: Token,
    pub at: u32,
    pub len: u32,
}
