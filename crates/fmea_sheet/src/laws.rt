//! Laws of the definitions alone: the contract of each function is the law, and its body is empty.

ghost use Rattle.std.specs.Prelude.{◌≡◌, ◌↔◌, ◌+◌, ◌∷◌, ℕ, Contains, List, length, map};
ghost use Rattle.csv.specs.Reading.{default_config, records_from};
ghost use Rattle.csv.specs.declared.parser.State.TheVariants.{StartRecord};
ghost use Rattle.plain_values.specs.Numbered.{numbers_below};
ghost use Rattle.model_phases.specs.declared.flat.FlatModel.{FlatModel as Flat};
ghost use Rattle.sheet_model.specs.declared.model.SheetModel.{SheetModel as Seen};
ghost use Rattle.fmea_sheet.specs.Cells.{reached_by};
ghost use Rattle.fmea_sheet.specs.Text.{header, line_fields, sheet_text};
ghost use Rattle.fmea_sheet.specs.inner.Reached.{IsReachedAlone};

/// A sheet that is read as comma-separated values (RFC 4180) gives the names of its columns, and the fields of the line of each event,
/// whatever the names are.
pub fn reads_back()
    ensures { (files texts : List (List ℕ)) (model : Seen)
        → records_from default_config (length model.events.flat.system.events + 1) StartRecord (sheet_text files texts model)
        ≡ header ∷ map (line_fields files texts model) (numbers_below (length model.events.flat.system.events)) }
{}

/// What the cells of a line are taken from is exactly what its event reaches alone.
pub fn reached_alone()
    ensures { (model : Flat) (event fact : ℕ) → Contains (reached_by model event) fact ↔ IsReachedAlone model event fact }
{}
