// The laws of the grammar of words.

ghost use Rattle.report_defs.specs.Words.{SpellsNumbers, SpellsHashes};

/// States what words give: a number exactly where the word is the decimal text of one within the limit, and a hash exactly
/// where it is the text of 32 bytes. It does nothing.
pub fn word_laws()
    ensures spells_numbers { SpellsNumbers }
    ensures spells_hashes { SpellsHashes }
{}
