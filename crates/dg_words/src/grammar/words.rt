//! The laws of commands and words.
ghost use Rattle.std.specs.Prelude.{◌≡◌, ◌+◌, ℕ, List, ◌∷◌, Ok, Err, drop};
ghost use Rattle.dg_words.specs.declared.word.Word.{Word};
ghost use Rattle.dg_lists.specs.declared.fault.WordFault.{WordFault};
ghost use Rattle.dg_words.specs.Reading.{command_at, words_of};
ghost use Rattle.dg_lists.specs.Grammar.Continuing.{GoesOn, IsNot, StopsAt};
ghost use Rattle.dg_words.specs.Grammar.Continuing.{HasNoCommand, IsNoWords};
ghost use Rattle.dg_words.specs.Grammar.Ends.{missing, Open};
ghost use Rattle.dg_words.specs.Grammar.Saying.{IsWrong};
ghost use Rattle.dg_words.specs.Grammar.Spelling.{BeginsCommand, SpellsWords};
ghost use Rattle.dg_words.specs.Grammar.Words.{Begun, WordsOf};

/// A law: where a text begins with a command, that command is read, up to the place behind its end; so it
/// begins with no other.
pub fn spelled_command_is_read()
    ensures { (text : List ℕ) (at n : ℕ) (ws : List Word) → Begun (drop at text) ws n → command_at text at ≡ Ok (ws, at + n) }
{}

/// A law: a text that spells words is read as these words; so it spells no others.
pub fn spelled_words_are_read()
    ensures { (text : List ℕ) (ws : List Word) → WordsOf text ws → words_of text ≡ Ok ws }
{}

/// A law: where a command is read, the text begins with that command, up to the place behind its end; so where
/// there is a fault it begins with none.
pub fn read_command_is_spelled()
    ensures { (text : List ℕ) (at next : ℕ) (ws : List Word) → command_at text at ≡ Ok (ws, next) → (n : ℕ) × (next ≡ at + n) × Begun (drop at text) ws n }
{}

/// A law: a text that is read as words spells them; so a text with a fault spells none.
pub fn read_words_are_spelled()
    ensures { (text : List ℕ) (ws : List Word) → words_of text ≡ Ok ws → WordsOf text ws }
{}

/// A law: each fault of a command has a place, before which the text can go on to a command, and up to which no text
/// begins with one; and its kind says what is wrong.
pub fn command_fault_has_its_place()
    ensures { (text : List ℕ) (at : ℕ) (fault : WordFault) → command_at text at ≡ Err fault → (place : ℕ) × GoesOn BeginsCommand (drop at text) place × StopsAt (HasNoCommand fault) (drop at text) place × IsWrong BeginsCommand fault (drop at text) place }
{}

/// A law: where the text before a place can go on to a command and the text up to it cannot, and this fault is what is
/// wrong there, just this fault is told.
pub fn what_is_wrong_in_a_command_is_told()
    ensures { (text : List ℕ) (at place : ℕ) (fault : WordFault) → GoesOn BeginsCommand (drop at text) place → StopsAt (IsNot BeginsCommand) (drop at text) place → IsWrong BeginsCommand fault (drop at text) place → command_at text at ≡ Err fault }
{}

/// A law: where items are open after a text that is to begin with a command, the end of the inmost is missing.
pub fn open_command_misses_its_inmost_end()
    ensures { (text : List ℕ) (at k : ℕ) (ks : List ℕ) → Open BeginsCommand (drop at text) (k ∷ ks) → command_at text at ≡ Err (missing k) }
{}

/// A law: what is open after a text that is to begin with a command is open in one way.
pub fn open_ends_are_one()
    ensures { (text ks ls : List ℕ) → Open BeginsCommand text ks → Open BeginsCommand text ls → ks ≡ ls }
{}

/// A law: each fault of words has a place, before which the text can go on to words, and up to which no text spells
/// any; and its kind says what is wrong.
pub fn words_fault_has_its_place()
    ensures { (text : List ℕ) (fault : WordFault) → words_of text ≡ Err fault → (place : ℕ) × GoesOn SpellsWords text place × StopsAt (IsNoWords fault) text place × IsWrong SpellsWords fault text place }
{}

/// A law: where the text before a place can go on to words and the text up to it cannot, and this fault is what is
/// wrong there, just this fault is told.
pub fn what_is_wrong_in_words_is_told()
    ensures { (text : List ℕ) (place : ℕ) (fault : WordFault) → GoesOn SpellsWords text place → StopsAt (IsNot SpellsWords) text place → IsWrong SpellsWords fault text place → words_of text ≡ Err fault }
{}

/// A law: where items are open after a text of words, the end of the inmost is missing.
pub fn open_words_miss_their_inmost_end()
    ensures { (text : List ℕ) (k : ℕ) (ks : List ℕ) → Open SpellsWords text (k ∷ ks) → words_of text ≡ Err (missing k) }
{}
