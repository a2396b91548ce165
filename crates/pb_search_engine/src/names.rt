//! Names by their numbers.

ghost use Rattle.std.specs.Prelude.{◌≡◌, map};
ghost use Rattle.pb_base.specs.Lines.{name_of};
ghost use Rattle.pb_code.specs.View.{process_labels_view};
ghost use Rattle.pb_search_engine.specs.OutcomeLines.{integer_names};

use pb_code::ProcessLabels;

/// Returns the name with this number, which is empty if there is none.
pub fn name_at(names: &[Vec<u8>], number: usize) -> &[u8]
    ensures { result.now ≡ name_of (map (λ name. name.items) names.now) number }
{
    match names.get(number) {
        Some(name) => name.as_slice(),
        None => &[],
    }
}

/// Returns the names of the integers of the process with this number, of which there are none if there is no
/// process.
pub fn integers_at(labels: &[ProcessLabels], number: usize) -> &[Vec<u8>]
    ensures { map (λ name. name.items) result.now ≡ integer_names (map process_labels_view labels.now) number }
{
    match labels.get(number) {
        Some(process) => process.integers.as_slice(),
        None => &[],
    }
}
