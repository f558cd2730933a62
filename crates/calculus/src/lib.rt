//! What a rule means: terms, types, stages and length, and what is proved of every rule.
//!
//! In comes the tree of a rule with its readings, out comes the sequence of its stages. A typed rule is never
//! stuck, keeps its types, and has a length, whatever is read. Hardly anything runs here: each function below
//! stands for one law of `specs/Laws.antt`, which the check asks for because the function promises it.
#![tactic(auto)]

ghost use Rattle.std.specs.Prelude.{[], pos};
ghost use Rattle.syntax.specs.Tree.{sum};
ghost use Rattle.calculus.specs.Laws.{NeverStuck, TypedIsClosed, KeepsTypes, HasLength, ValueBelongs, Determined, TypedByConditions, SpellingTells, HasGeneralType};
ghost use Rattle.calculus.specs.Length.{Answer};
ghost use Rattle.calculus.specs.Figures.{Figures, Gives, thrice, leaving};

/// Does nothing: its contract is that a typed rule is never stuck.
pub fn never_stuck()
    ensures { NeverStuck }
{}

/// Does nothing: its contract is that in a typed rule all variables are bound.
pub fn typed_is_closed()
    ensures { TypedIsClosed }
{}

/// Does nothing: its contract is that putting readings in keeps every type, and so does each reduction.
pub fn keeps_types()
    ensures { KeepsTypes }
{}

/// Does nothing: its contract is that a typed rule has a length, whatever is read.
pub fn has_length()
    ensures { HasLength }
{}

/// Does nothing: its contract is that a value belongs to every type of its rule.
pub fn value_belongs()
    ensures { ValueBelongs }
{}

/// Does nothing: its contract is that stages are determined.
pub fn determined()
    ensures { Determined }
{}

/// Does nothing: its contract is that a rule has a type exactly when its nodes can be given types that meet all
/// conditions.
pub fn typed_by_conditions()
    ensures { TypedByConditions }
{}

/// Does nothing: its contract is that two rules with most general types spell these alike exactly when they have
/// the same types.
pub fn spelling_tells()
    ensures { SpellingTells }
{}

/// Does nothing: its contract is that every rule that has a type has a most general one.
pub fn has_general_type()
    ensures { HasGeneralType }
{}

/// Does nothing: its contract is that the worked figures hold.
pub fn figures_stand()
    ensures { Figures }
{}

/// How many steps `(fun f -> fun x -> x + f x) (fun y -> y + y) 7` takes to give 21.
pub fn steps_of_thrice_seven() -> u32
    ensures { Gives [] thrice result (Answer.number (pos 21)) }
{
    5
}

/// The sum that `(2147483647 + 1) + (2147483647 + 2)` stops at: the right one.
pub fn first_sum_out_of_range() -> u32
    ensures { Gives [] (sum (leaving 1) (leaving 2)) 0 (Answer.range result) }
{
    4
}
