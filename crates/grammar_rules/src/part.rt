use crate::reader::{ReadError, Reader};
use plain_values::List;

/// Parts of which a text may have several, one after the other: a loop of the grammar.
///
/// A further part is read exactly where the next tokens can begin one, and each takes at least one token.
pub trait Parts {
    ghost use Rattle.std.specs.Prelude.{List as Items};
    ghost use Rattle.grammar_rules.specs.Rules.{Rule, Test};
    ghost use Rattle.grammar_rules.specs.inner.Parts.{TakesTokens};
    ghost use Rattle.grammar_rules.specs.inner.Reader.{Gives, Begins};

    /// What a part gives.
    type Part: Drop;

    ghost tests: { Items Test };

    ghost rule: { Rule Self.Part };

    /// Whether the next tokens begin a part.
    fn begins(reader: &mut Reader) -> bool
        ensures { Begins result 0 tests reader.old reader.new };

    /// Reads a part.
    fn part(reader: &mut Reader) -> Result<Self::Part, ReadError>
        ensures { Gives result rule reader.old reader.new };

    ghost takes_tokens: { TakesTokens rule };
}

impl<'a> Reader<'a> {
    ghost use Rattle.std.specs.Prelude.{[], ◌∷◌};
    ghost use Rattle.grammar_rules.specs.Parts.{parts_after};
    ghost use Rattle.grammar_rules.specs.inner.Reader.{Gives, given};

    /// Reads parts as long as the next tokens begin one, perhaps none.
    pub fn parts<P: Parts>(&mut self) -> Result<List<P::Part>, ReadError>
        ensures { Gives result (parts_after [] P.tests P.rule) self.old self.new }
    {
        let mut parts = List::new(self.alloc());
        self.more_parts::<P>(&mut parts)?;
        Ok(parts)
    }

    /// Reads parts as long as the next tokens begin one, and gives them after the first, which was read before.
    pub fn parts_after<P: Parts>(&mut self, first: P::Part) -> Result<List<P::Part>, ReadError>
        ensures { Gives result (parts_after (first ∷ []) P.tests P.rule) self.old self.new }
    {
        let mut parts = List::new(self.alloc());
        parts.push(first)?;
        self.more_parts::<P>(&mut parts)?;
        Ok(parts)
    }

    /// Reads parts as long as the next tokens begin one, perhaps none, and adds them to those that were read before.
    pub fn more_parts<P: Parts>(&mut self, parts: &mut List<P::Part>) -> Result<(), ReadError>
        ensures { Gives (given result parts.new) (parts_after parts.old P.tests P.rule) self.old self.new }
    {
        while P::begins(self) {
            parts.push(P::part(self)?)?;
        }
        Ok(())
    }
}

/// Parts of which a text may have several, one after the other, and which make one value together: each goes on from
/// the value of those before it.
///
/// A further part is read exactly where the next tokens can begin one, and each takes at least one token.
pub trait Gathered {
    ghost use Rattle.std.specs.Prelude.{List as Items};
    ghost use Rattle.grammar_rules.specs.Rules.{Rule, Test};
    ghost use Rattle.grammar_rules.specs.inner.Parts.{TakesTokens};
    ghost use Rattle.grammar_rules.specs.inner.Reader.{Gives, Begins, given};

    /// What the parts give together.
    type Whole: Drop;

    ghost tests: { Items Test };

    ghost rule: { Self.Whole → Rule Self.Whole };

    /// Whether the next tokens begin a part.
    fn begins(reader: &mut Reader) -> bool
        ensures { Begins result 0 tests reader.old reader.new };

    /// Reads a part, and makes what those before it give into what they give with it.
    fn part(reader: &mut Reader, whole: &mut Self::Whole) -> Result<(), ReadError>
        ensures { Gives (given result whole.new) (rule whole.old) reader.old reader.new };

    ghost takes_tokens: { (whole : Self.Whole) → TakesTokens (rule whole) };
}

impl<'a> Reader<'a> {
    ghost use Rattle.grammar_rules.specs.Rules.{gathers};
    ghost use Rattle.grammar_rules.specs.inner.Reader.{Gives, given};

    /// Reads parts as long as the next tokens begin one, perhaps none, and makes `whole` into what it is with them.
    pub fn gather<G: Gathered>(&mut self, whole: &mut G::Whole) -> Result<(), ReadError>
        ensures { Gives (given result whole.new) (gathers G.tests G.rule whole.old) self.old self.new }
    {
        while G::begins(self) {
            G::part(self, whole)?;
        }
        Ok(())
    }
}
