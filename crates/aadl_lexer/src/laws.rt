//! What the definitions of tokens and faults say of each other.

ghost use Rattle.std.specs.Prelude.{◌≡◌, ℕ, List};
ghost use Rattle.aadl_syntax.specs.declared.token.Token.{Token};
ghost use Rattle.plain_values.specs.declared.refusal.Code.{Code};
ghost use Rattle.aadl_lexer.specs.Tokens.{Tokens, IsFault};

/// Bytes have at most one list of tokens.
pub fn one_list()
    ensures { (bytes : List ℕ) (a b : List Token) → Tokens bytes a → Tokens bytes b → a ≡ b }
{}

/// Bytes with a fault have no tokens, and no other fault.
pub fn one_fault()
    ensures none { (bytes : List ℕ) (list : List Token) (code : Code) (place : ℕ) → Tokens bytes list → IsFault bytes code place → ⊥ }
    ensures one { (bytes : List ℕ) (c d : Code) (m n : ℕ) → IsFault bytes c m → IsFault bytes d n → (c ≡ d) × (m ≡ n) }
{}
