//! Rules of grammars, each with two readings: which tokens spell which value, and a reader of it.
#![tactic(auto)]

ghost use Rattle.tm_grammar.specs.One.{IsOne};
ghost use Rattle.tm_grammar.specs.Rule.{Rule};

/// A rule for values of type `A` over tokens of type `T`.
pub trait Grammar<T, A> {
    ghost rule: { Rule T A };
}

/// Tokens spell at most one value of a grammar, and leave one rest.
pub fn one_value<T, A, G: Grammar<T, A>>()
    ensures { IsOne G.rule }
{}
