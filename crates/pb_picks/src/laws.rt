//! Laws of pick lines, each the contract of a function that does nothing.

ghost use Rattle.pb_picks.specs.Laws.{LinesSpell, SpelledIsNotFaulty, SpellsAtMostOne};

/// The lines that `write_picks` writes say just the picks that were written.
pub fn lines_spell()
    ensures { LinesSpell }
{}

/// A text says at most one list of picks.
pub fn spells_at_most_one()
    ensures { SpellsAtMostOne }
{}

/// A text that says picks has no faulty line, so `read_picks` returns these picks, or is out of memory.
pub fn spelled_is_not_faulty()
    ensures { SpelledIsNotFaulty }
{}
