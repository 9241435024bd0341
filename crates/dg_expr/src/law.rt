//! Laws: the value of a tree is made of the values that its operators give.
ghost use Rattle.std.specs.Prelude.{ℕ, ◌≡◌, List, Err};
ghost use Rattle.dg_expr.specs.declared.fault.ExprFault.TheVariants.{Memory};
ghost use Rattle.dg_expr.specs.declared.operator.Infix.{Infix};
ghost use Rattle.dg_expr.specs.declared.operator.Prefix.{Prefix};
ghost use Rattle.dg_expr.specs.Operator.{value_of, value_of_one};
ghost use Rattle.dg_expr.specs.ShortCircuit.{CodeDoesAsItsTree, ConditionEnds, LeftEnds, NoBranchIsChosen, OneBranchIsChosen, OneEnds, OneIsApplied, OperandIsLoaded, RightEnds, RightIsLeftAlone, RightIsTaken, SidesAreApplied};

/// A law: where the sides of an operator have values, the tree's is the one that `apply` gives on them (and
/// `apply_one` on one), and so is its fault. Whatever substitutes operands, in states `S` and with answers `R`,
/// and whatever `Q` is seen of these.
pub fn values_are_applied<S, R, Q>()
    ensures sides { SidesAreApplied S R Q }
    ensures both { RightIsTaken S R Q }
    ensures one { OneIsApplied S R Q }
    ensures operand { OperandIsLoaded S R Q }
{}

/// A law: a right side that `&&` or `||` doesn't need is not evaluated, whatever it is: the tree does what `apply`
/// says of the left side's value and any right text. A side that is needed and ends without a value ends the tree.
pub fn sides_are_taken_as_needed<S, R, Q>()
    ensures alone { RightIsLeftAlone S R Q }
    ensures left { LeftEnds S R Q }
    ensures right { RightEnds S R Q }
    ensures only { OneEnds S R Q }
{}

/// A law: just the chosen branch of a condition is evaluated; none is where the condition has no truth.
pub fn one_branch_is_chosen<S, R, Q>()
    ensures chosen { OneBranchIsChosen S R Q }
    ensures none { NoBranchIsChosen S R Q }
    ensures ends { ConditionEnds S R Q }
{}

/// A law: a tree's flat code, run by itself, does what the tree does, to which the laws above apply.
pub fn code_does_as_its_tree<S, R>()
    ensures { CodeDoesAsItsTree S R }
{}

/// A law: what operators give is a matter of their operands alone: no fault of theirs is a want of memory. Any other fault of a tree
/// is a text that has no truth.
pub fn no_operator_wants_memory()
    ensures between { (op : Infix) (a b : List ℕ) → ¬ (value_of op a b ≡ Err Memory) }
    ensures before { (op : Prefix) (a : List ℕ) → ¬ (value_of_one op a ≡ Err Memory) }
{}
