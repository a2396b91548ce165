//! Laws of what `record` writes, as contracts of functions that do nothing.

ghost use Rattle.pb_engines.specs.RecordLaws.{RecordsCanBeReplayed, SeedsWriteOneRecord};

/// `replay` cuts what `record` wrote into the recorded text, ended by a line feed, and lines that say the
/// picks of its run. Under the same lending it refuses no line, no pick and not the text, unless that had 65,536
/// bytes and no line feed after it; and it ends in a deadlock exactly if `record` ended so, if there is memory.
pub fn records_can_be_replayed()
    ensures { RecordsCanBeReplayed }
{}

/// With a seed, `record` writes the same bytes for a text each time, with the same status: on any machine, and
/// whatever memory it has, if it writes a record at all.
pub fn seeds_write_one_record()
    ensures { SeedsWriteOneRecord }
{}
