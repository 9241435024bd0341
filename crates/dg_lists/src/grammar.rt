//! Laws: a text is read as a list exactly where the grammar spells that list.
ghost use Rattle.std.specs.Prelude.{◌≡◌, ℕ, List, Ok, Err};
ghost use Rattle.dg_lists.specs.declared.fault.WordFault.{WordFault};
ghost use Rattle.dg_lists.specs.Elements.{elements_of};
ghost use Rattle.dg_lists.specs.Grammar.Continuing.{GoesOn, IsList, IsNoList, IsNot, StopsAt};
ghost use Rattle.dg_lists.specs.Grammar.Saying.{Says};
ghost use Rattle.dg_lists.specs.Grammar.Lists.{ListOf};

/// A law: a text that spells a list is read as that list; so it spells no other.
pub fn spelled_list_is_read()
    ensures { (text : List ℕ) (xs : List (List ℕ)) → ListOf text xs → elements_of text ≡ Ok xs }
{}

/// A law: a text that is read as a list spells it; so a text with a fault spells none.
pub fn read_list_is_spelled()
    ensures { (text : List ℕ) (xs : List (List ℕ)) → elements_of text ≡ Ok xs → ListOf text xs }
{}

/// A law: each fault of a list has a place, before which the text can go on to a list, and up to which no text is
/// one; and its kind says what is wrong there.
pub fn list_fault_has_its_place()
    ensures { (text : List ℕ) (fault : WordFault) → elements_of text ≡ Err fault → (place : ℕ) × GoesOn IsList text place × StopsAt (IsNoList fault) text place × Says fault text place }
{}

/// A law: where the text before a place can go on to a list and the text up to it cannot, and this fault is what is
/// wrong there, just this fault is told.
pub fn what_is_wrong_in_a_list_is_told()
    ensures { (text : List ℕ) (place : ℕ) (fault : WordFault) → GoesOn IsList text place → StopsAt (IsNot IsList) text place → Says fault text place → elements_of text ≡ Err fault }
{}
