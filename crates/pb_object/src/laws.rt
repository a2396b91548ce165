//! Laws of the texts of objects, over their grammar alone.

ghost use Rattle.std.specs.Prelude.{◌≡◌, ◌↔◌, ◌≤◌, ◌++◌, [], List, ℕ, Ok, Err, length};
ghost use Rattle.pb_object.specs.declared.fault.ObjectFault.{ObjectFault};
ghost use Rattle.pb_object.specs.FaultPlaces.{IsPlaced};
ghost use Rattle.pb_code.specs.declared.format.Format.{Format};
ghost use Rattle.pb_object.specs.Answers.{HasText, HasTextOne, IsObjectOf, SpellsCode, SpellsOne};
ghost use Rattle.pb_code.specs.declared.format.Format.TheVariants.{Two};
ghost use Rattle.pb_object.specs.Formats.{FitsFirst, KeepsRanges};
ghost use Rattle.pb_code.specs.Limits.{KeepsLimits, PushesFit};
ghost use Rattle.pb_object.specs.Objects.{Object};
ghost use Rattle.pb_object.specs.Reading.{answer_of};
ghost use Rattle.pb_code.specs.Whole.{Code, ProcessLabels};

use pb_base::limits::MAX_INPUT;

/// No bytes spell two codes, whatever their formats.
pub fn one_code()
    ensures { (f g : Format) (c d : Code) (l m : List ProcessLabels) (text : List ℕ)
        → SpellsCode f c l text → SpellsCode g d m text → (c ≡ d) × (l ≡ m) }
{}

/// No code has two spellings in a format.
pub fn one_spelling()
    ensures both { (f : Format) (c : Code) (l : List ProcessLabels) (x y : List ℕ)
        → SpellsCode f c l x → SpellsCode f c l y → x ≡ y }
    ensures first { (c : Code) (x y : List ℕ) → SpellsOne c x → SpellsOne c y → x ≡ y }
{}

/// No proper prefix of an object is an object.
pub fn no_proper_prefix()
    ensures { (f g : Format) (c d : Code) (l m : List ProcessLabels) (text more : List ℕ)
        → SpellsCode f c l text → SpellsCode g d m (text ++ more) → more ≡ [] }
{}

/// What a text spells is what reading it returns, if it is not too long.
pub fn read_again()
    ensures { (f : Format) (c : Code) (l : List ProcessLabels) (text : List ℕ)
        → SpellsCode f c l text → length text ≤ MAX_INPUT
        → (o : Object) × IsObjectOf f c l o × (answer_of text ≡ Ok o) }
{}

/// Code within its limits, with labels that fit it, and no other has a text in the second format.
pub fn ranges_have_a_text()
    ensures { (code : Code) (labels : List ProcessLabels) → KeepsRanges code labels ↔ HasText Two code labels }
{}

/// Of code within its limits, that which has at most 32 processes and takes and gives one resource at a time
/// has a text in the first format, and no other.
pub fn first_format_fits()
    ensures yes { (code : Code) → KeepsLimits code → PushesFit code → FitsFirst code → HasTextOne code }
    ensures only { (code : Code) → HasTextOne code → FitsFirst code }
{}

/// The offset that a refusal names is known from the grammar alone: the lines before it begin some object,
/// and none begins with them and the line there. At 0 of a text that is too long nothing is said of its
/// lines.
pub fn fault_place()
    ensures { (text : List ℕ) (fault : ObjectFault) → answer_of text ≡ Err fault → IsPlaced text fault }
{}
