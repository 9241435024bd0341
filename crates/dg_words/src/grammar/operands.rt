//! The laws of operands.
ghost use Rattle.std.specs.Prelude.{◌≡◌, ◌+◌, ◌∷◌, [], ℕ, List, Ok, Err, drop, false};
ghost use Rattle.dg_words.specs.Piece.{Piece};
ghost use Rattle.dg_lists.specs.declared.fault.WordFault.{WordFault};
ghost use Rattle.dg_words.specs.declared.word.Word.{Word};
ghost use Rattle.dg_words.specs.Reading.{operand_at};
ghost use Rattle.dg_lists.specs.Grammar.Continuing.{GoesOn, IsNot, StopsAt};
ghost use Rattle.dg_words.specs.Grammar.Continuing.{HasNoOperand};
ghost use Rattle.dg_words.specs.Grammar.Operands.{Begun};
ghost use Rattle.dg_words.specs.Grammar.Ends.{missing, Open};
ghost use Rattle.dg_words.specs.Grammar.Saying.{IsWrong};
ghost use Rattle.dg_words.specs.Grammar.Spelling.{BeginsOperand};

/// A law: where a text begins with an operand, that operand is read, as one word, up to the place behind it; so it
/// begins with no other.
pub fn spelled_operand_is_read()
    ensures { (text : List ℕ) (at n : ℕ) (ps : List Piece) → Begun (drop at text) ps n → operand_at text at ≡ Ok (record { expand = false; parts = ps } ∷ [], at + n) }
{}

/// A law: where an operand is read, it is one word, and the text begins with that operand, up to the place behind it;
/// so where there is a fault it begins with none.
pub fn read_operand_is_spelled()
    ensures { (text : List ℕ) (at next : ℕ) (ws : List Word) → operand_at text at ≡ Ok (ws, next) → (ps : List Piece) × (n : ℕ) × (ws ≡ record { expand = false; parts = ps } ∷ []) × (next ≡ at + n) × Begun (drop at text) ps n }
{}

/// A law: each fault of an operand has a place, before which the text can go on to an operand, and up to which no
/// text begins with one; and its kind says what is wrong.
pub fn operand_fault_has_its_place()
    ensures { (text : List ℕ) (at : ℕ) (fault : WordFault) → operand_at text at ≡ Err fault → (place : ℕ) × GoesOn BeginsOperand (drop at text) place × StopsAt (HasNoOperand fault) (drop at text) place × IsWrong BeginsOperand fault (drop at text) place }
{}

/// A law: where the text before a place can go on to an operand and the text up to it cannot, and this fault is what is
/// wrong there, just this fault is told.
pub fn what_is_wrong_in_an_operand_is_told()
    ensures { (text : List ℕ) (at place : ℕ) (fault : WordFault) → GoesOn BeginsOperand (drop at text) place → StopsAt (IsNot BeginsOperand) (drop at text) place → IsWrong BeginsOperand fault (drop at text) place → operand_at text at ≡ Err fault }
{}

/// A law: where items are open after a text that is to begin with an operand, the end of the inmost is missing.
pub fn open_operand_misses_its_inmost_end()
    ensures { (text : List ℕ) (at k : ℕ) (ks : List ℕ) → Open BeginsOperand (drop at text) (k ∷ ks) → operand_at text at ≡ Err (missing k) }
{}
