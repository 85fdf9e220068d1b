ghost use Rattle.std.specs.Prelude.{◌≡◌, ◌↔◌, IfOk, IsTrue};
ghost use Rattle.plain_values.specs.Name.{is_same_text};
ghost use Rattle.aadl_syntax.specs.inner.Token.{IsIdentifier};

use plain_values::{List, Mem, Name, is_same};
use std::alloc::Global;
use std::marker::Model;

/// An identifier of AADL: the text of a word, with its letters in lower case. Contracts see it as its bytes.
#[derive(Drop)]
pub struct Identifier {
    text: Name,
}

impl Model for Identifier {
    ghost use Rattle.std.specs.Prelude.{List, ℕ};

    ghost Value = { List ℕ };

    ghost use Rattle.aadl_syntax.specs.inner.Token.{IsIdentifier};

    ghost view = { λ i. i.text };

    ghost invariant = { λ i. IsIdentifier i.text };
}

impl Identifier {
    /// The identifier of this text.
    pub fn of(alloc: Global, text: &[u8]) -> Mem<Identifier>
        requires { IsIdentifier text.now }
        ensures { IfOk result (λ identifier. identifier ≡ text.now) }
    {
        let text = List::of(Vec::from_slice(alloc, text)?)?;
        Ok(Identifier { text })
    }

    /// Its bytes.
    pub fn text(&self) -> &[u8]
        ensures text { result.now ≡ self.now }
        ensures form { IsIdentifier self.now }
    {
        self.text.items()
    }

    /// Whether it is the same as another.
    pub fn is(&self, other: &Identifier) -> bool
        ensures value { result ≡ is_same_text self.now other.now }
        ensures means { IsTrue result ↔ (self.now ≡ other.now) }
    {
        is_same(self.text.items(), other.text.items())
    }
}
