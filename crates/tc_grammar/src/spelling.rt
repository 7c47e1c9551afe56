//! The law of reading a line.
ghost use Rattle.tc_grammar.specs.Table.{EachLineSpellsOneThing};

/// States that each line spells exactly one thing: the row of its tokens in the table of lines, or
/// a fault if it has no row. What it spells is its reading, which `parse_line` returns.
pub fn each_line_spells_one_thing()
    ensures { EachLineSpellsOneThing }
{}
