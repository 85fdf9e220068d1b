//! A law of the definitions alone: the contract is the law, and the body is empty.

ghost use Rattle.std.specs.Prelude.{◌≡◌, ◌↔◌, List, [], Some};
ghost use Rattle.aadl_syntax.specs.declared.token.Token.{Token};
ghost use Rattle.grammar_rules.specs.Rules.{Reads};
ghost use Rattle.property_reader.specs.declared.field.Field.{Field};
ghost use Rattle.property_reader.specs.Fields.{rate_value, value_fields};

/// The fields of a value are those as which its tokens read by the rule, where they read so.
pub fn value_reads()
    ensures { (tokens : List Token) (fields : List Field) → (value_fields tokens ≡ Some fields) ↔ Reads 0 rate_value tokens fields [] }
{}
