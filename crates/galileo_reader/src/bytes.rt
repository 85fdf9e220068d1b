//! Parts of a text.

ghost use Rattle.std.specs.Prelude.{◌≡◌, take, drop};

/// The bytes of a text from a place on.
pub(crate) fn behind(text: &[u8], at: usize) -> &[u8]
    ensures { result.now ≡ drop at text.now }
{
    if at <= text.len() { &text[at..] } else { &[] }
}

/// So many bytes of a text, from its start on.
pub(crate) fn front(text: &[u8], len: usize) -> &[u8]
    ensures { result.now ≡ take len text.now }
{
    if len <= text.len() {
        &text[..len]
    } else {
        text
    }
}
