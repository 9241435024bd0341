//! The laws on continuations.
ghost use Rattle.dg_laws.specs.Law.{EachTextIsGrafted, TheJudgingIsGrafted, EachTextComesToAConclusion, NoPeekIsGrafted};
ghost use Rattle.dg_laws.specs.WordValues.{NestedFormIsOne, ReadWordsAreNested};

/// The tree of each text under a continuation is the tree of the text alone, with the continuation grafted on its ends.
pub fn each_text_is_grafted()
    ensures { EachTextIsGrafted }
{}

/// So is the tree of a whole judging: of the board's file, the tool's library and the script.
pub fn the_judging_is_grafted()
    ensures { TheJudgingIsGrafted }
{}

/// In each source a text comes to a code, a value and a state, to a limit, or to a question without an answer, and which
/// it is does not hang on what comes after.
pub fn each_text_comes_to_a_conclusion()
    ensures { EachTextComesToAConclusion }
{}

/// An evaluation that looks at what comes after it is not grafted.
pub fn no_peek_is_grafted()
    ensures { NoPeekIsGrafted }
{}

/// The nested form of pieces in a row is one, and it is found from the last piece on.
pub fn nested_form_is_one()
    ensures { NestedFormIsOne }
{}

/// The words that a text has, and its operands, are of such a form: the parts of each are nested.
pub fn read_words_are_nested()
    ensures { ReadWordsAreNested }
{}
