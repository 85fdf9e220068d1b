ghost use Rattle.std.specs.Prelude.{◌≡◌};
ghost use Rattle.propagation_links.specs.Bound.{is_guest, is_host, is_of_first, is_plain, is_plain_or_virtual, is_virtual};

use aadl_syntax::{BindingKind, Category};
use plain_values::is_same;

/// Whether what is of a category is bound by this kind of binding to what it stands in: a virtual processor as to a processor, and a
/// virtual bus as a connection is.
pub(crate) fn is_guest(kind: BindingKind, category: &Category) -> bool
    ensures { result ≡ is_guest kind category.now }
{
    match kind {
        BindingKind::Processor => is_virtual(category, b"processor"),
        BindingKind::Connection => is_virtual(category, b"bus"),
        BindingKind::Memory | BindingKind::Function => false,
    }
}

/// Whether what stands in something of a category may be bound to it so.
pub(crate) fn is_host(kind: BindingKind, category: &Category) -> bool
    ensures { result ≡ is_host kind category.now }
{
    match kind {
        BindingKind::Processor => is_plain_or_virtual(category, b"processor"),
        BindingKind::Connection => {
            is_plain_or_virtual(category, b"bus") || is_plain_or_virtual(category, b"processor")
        }
        BindingKind::Memory | BindingKind::Function => false,
    }
}

/// Whether the first profile reads bindings of a kind.
pub(crate) fn is_of_first(kind: BindingKind) -> bool
    ensures { result ≡ is_of_first kind }
{
    match kind {
        BindingKind::Processor | BindingKind::Memory => true,
        BindingKind::Connection | BindingKind::Function => false,
    }
}

/// Whether a category is this word, alone or behind `virtual`.
fn is_plain_or_virtual(category: &Category, word: &[u8]) -> bool
    ensures { result ≡ is_plain_or_virtual word.now category.now }
{
    is_plain(category, word) || is_virtual(category, word)
}

/// Whether a category is this word alone.
fn is_plain(category: &Category, word: &[u8]) -> bool
    ensures { result ≡ is_plain word.now category.now }
{
    category.second.is_none() && is_same(category.word.text(), word)
}

/// Whether a category is `virtual` and this word.
fn is_virtual(category: &Category, word: &[u8]) -> bool
    ensures { result ≡ is_virtual word.now category.now }
{
    match &category.second {
        Some(second) => is_same(category.word.text(), b"virtual") && is_same(second.text(), word),
        None => false,
    }
}
