//! Laws of the definitions alone: the contract is the law, and the body is empty.

ghost use Rattle.std.specs.Prelude.{◌≡◌, ◌↔◌, List, [], Some};
ghost use Rattle.aadl_syntax.specs.declared.token.Token.{Token};
ghost use Rattle.grammar_rules.specs.Rules.{Reads};
ghost use Rattle.hazard_values.specs.declared.field.Field.{Field};
ghost use Rattle.hazard_values.specs.Records.{hazards_value, value_records};
ghost use Rattle.hazard_values.specs.Texts.{list_items, list_value};

/// The records of a value are those as which its tokens read by the rule, where they read so.
pub fn value_reads()
    ensures { (tokens : List Token) (records : List (List Field)) → (value_records tokens ≡ Some records) ↔ Reads 0 hazards_value tokens records [] }
{}

/// The items of a value are those as which its tokens read as a list, where they read so.
pub fn list_reads()
    ensures { (tokens : List Token) (items : List (List Token)) → (list_items tokens ≡ Some items) ↔ Reads 0 list_value tokens items [] }
{}
