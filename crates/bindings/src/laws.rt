//! Laws of the definitions alone: each contract is the law, and the body is empty.

ghost use Rattle.std.specs.Prelude.{◌≡◌, ◌↔◌, ◌++◌, ℕ, Bool, List, [], ◌∷◌, Some, IsTrue, codes, flat_map};
ghost use Rattle.aadl_syntax.specs.declared.core_model.Binding.{Binding};
ghost use Rattle.aadl_syntax.specs.declared.token.Token.{Token};
ghost use Rattle.grammar_rules.specs.Rules.{Reads};
ghost use Rattle.grammar_rules.specs.Spans.{is_even};
ghost use Rattle.grammar_rules.specs.Tokens.{is_sign};
ghost use Rattle.bindings.specs.Bindings.{binding, piece_binding};
ghost use Rattle.bindings.specs.Pieces.{section_pieces};

/// The binding of a piece is the one as which its tokens read by the rule, where they read so, in braces and elsewhere.
pub fn binding_reads()
    ensures { (file : ℕ) (braced : Bool) (tokens : List Token) (its : Binding) → (piece_binding file braced tokens ≡ Some its) ↔ Reads file (binding braced) tokens its [] }
{}

/// The pieces of a section are all of its tokens, where it ends as the grammar has it: with a semicolon, at which as many
/// brackets were opened as closed.
pub fn pieces_are_all()
    ensures { (tokens : List Token) (last : Token) → IsTrue (is_even tokens) → IsTrue (is_sign (codes ";") last) → flat_map (λ piece. piece) (section_pieces (tokens ++ last ∷ [])) ≡ tokens ++ last ∷ [] }
{}
