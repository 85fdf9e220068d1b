//! Laws of the definitions alone: the contract of each function is the law, and its body is empty.

ghost use Rattle.std.specs.Prelude.{◌≡◌, ◌+◌, ◌∷◌, ℕ, List, All, length, map};
ghost use Rattle.aadl_syntax.specs.Form.{IsNumber};
ghost use Rattle.plain_values.specs.Rising.{RisesWithin};
ghost use Rattle.fault_system.specs.Systems.{System};
ghost use Rattle.property_reader.specs.declared.rate.Rate.{Rate};
ghost use Rattle.csv.specs.Reading.{default_config, records_from};
ghost use Rattle.csv.specs.declared.parser.State.TheVariants.{StartRecord};
ghost use Rattle.fmea_rows.specs.Rows.{rows_of};
ghost use Rattle.fmea_rows.specs.inner.Rows.{AreRows};
ghost use Rattle.fmea_rows.specs.Text.{header, row_fields, table_text};
ghost use Rattle.fmea_rows.specs.inner.Text.{HasFieldNames};
ghost use Rattle.fmea_rows.specs.declared.row.Row.{Row};

/// The computed rows are the rows: a row stands exactly where its event alone reaches its effect.
pub fn computed_rows()
    ensures { (system : System) (effects : List ℕ) → RisesWithin 0 (length system.facts) effects
        → AreRows system effects (rows_of system effects) }
{}

/// A system has one table over some effects.
pub fn one_table()
    ensures { (system : System) (effects : List ℕ) (a b : List Row)
        → AreRows system effects a → AreRows system effects b → a ≡ b }
{}

/// A table that is read as comma-separated values (RFC 4180) gives the names of its columns, and the fields of its rows.
pub fn reads_back()
    ensures { (system : System) (rates : List Rate) (rows : List Row)
        → HasFieldNames system → All (λ rate. IsNumber rate.text) rates
        → records_from default_config (length rows + 1) StartRecord (table_text system rates rows)
        ≡ header ∷ map (row_fields system rates) rows }
{}
