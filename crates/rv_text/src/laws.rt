// The laws of the texts.
ghost use Rattle.machine_defs.specs.TextLaws.{OneWordEncodes, OneInstructionHasText, OneCodeAssembles, OneLineIsFirstBad, NoneIsBadOfCode};

/// States that a word, an instruction by its text, the code of lines and their first bad line are each at most one, and that
/// lines that stand for code have no bad one. It does nothing.
pub fn text_laws()
    ensures one_word { OneWordEncodes }
    ensures one_instruction { OneInstructionHasText }
    ensures one_code { OneCodeAssembles }
    ensures one_bad_line { OneLineIsFirstBad }
    ensures none_bad { NoneIsBadOfCode }
{}
