//! Laws over the definitions alone, each the contract of a function that does nothing.

ghost use Rattle.std.specs.Prelude.{◌≡◌, true, ℕ, List};
ghost use Rattle.pb_json_lines.specs.Dialects as dialects;
ghost use Rattle.pb_json_lines.specs.JsonLines.{json_lines};
ghost use Rattle.pb_json_lines.specs.Live.{told_alone};
ghost use Rattle.pb_json_lines.specs.declared.form.Dialect.{Dialect};

/// Lines that are told as they come are told as they are in a whole text.
pub fn live_lines_are_json_lines()
    ensures { (dialect : Dialect) → dialects.comes_live dialect ≡ true → (text : List ℕ)
        → told_alone dialect text ≡ json_lines dialect text }
{}
