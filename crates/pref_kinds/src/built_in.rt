// The built-in types.
ghost use Rattle.std.specs.Prelude.{◌≡◌};
ghost use Rattle.pref_kinds.specs.Kinds as kinds;
ghost use Rattle.pref_kinds.specs.Kinds.{text_of};

/// A built-in type of preference statements (Brewka, Delgrande, Romero and Schaub 2015).
#[derive(Clone, Copy, Debug, PartialEq, Eq)]
pub enum BuiltIn {
    /// `subset`: fewer formulas are satisfied, as a set.
    Subset,
    /// `superset`: more formulas are satisfied, as a set.
    Superset,
    /// `less(cardinality)`: fewer formulas are satisfied, in number.
    LessCardinality,
    /// `more(cardinality)`: more formulas are satisfied, in number.
    MoreCardinality,
    /// `less(weight)`: the weights of the satisfied formulas have a smaller sum.
    LessWeight,
    /// `more(weight)`: the weights of the satisfied formulas have a greater sum.
    MoreWeight,
    /// `aso`: each element is satisfied to a degree (Brewka, Niemelä and Truszczyński 2003).
    Aso,
    /// `poset`: formulas are ordered (after Dershowitz and Manna 1979).
    Poset,
    /// `cp`: atoms are preferred to their absence, under conditions (after Boutilier and others 2004).
    Cp,
    /// `pareto`: at least as good in all named statements, and better in one.
    Pareto,
    /// `lexico`: the named statement of the greatest weight decides first.
    Lexico,
    /// `and`: better in all named statements.
    And,
    /// `neg`: worse in the named statement.
    Neg,
}

impl BuiltIn {
    /// The type as it is written in a statement: `subset` or `less(weight)`.
    pub fn text(self) -> &'static str
        ensures { result.now ≡ text_of self }
    {
        match self {
            BuiltIn::Subset => "subset",
            BuiltIn::Superset => "superset",
            BuiltIn::LessCardinality => "less(cardinality)",
            BuiltIn::MoreCardinality => "more(cardinality)",
            BuiltIn::LessWeight => "less(weight)",
            BuiltIn::MoreWeight => "more(weight)",
            BuiltIn::Aso => "aso",
            BuiltIn::Poset => "poset",
            BuiltIn::Cp => "cp",
            BuiltIn::Pareto => "pareto",
            BuiltIn::Lexico => "lexico",
            BuiltIn::And => "and",
            BuiltIn::Neg => "neg",
        }
    }
}

/// The built-in type that is written so. None exactly where no built-in type is.
pub fn kind_of(text: &str) -> Option<BuiltIn>
    ensures { result ≡ kinds.kind_of text.now }
{
    if text == "subset" {
        Some(BuiltIn::Subset)
    } else if text == "superset" {
        Some(BuiltIn::Superset)
    } else if text == "less(cardinality)" {
        Some(BuiltIn::LessCardinality)
    } else if text == "more(cardinality)" {
        Some(BuiltIn::MoreCardinality)
    } else if text == "less(weight)" {
        Some(BuiltIn::LessWeight)
    } else if text == "more(weight)" {
        Some(BuiltIn::MoreWeight)
    } else if text == "aso" {
        Some(BuiltIn::Aso)
    } else if text == "poset" {
        Some(BuiltIn::Poset)
    } else if text == "cp" {
        Some(BuiltIn::Cp)
    } else if text == "pareto" {
        Some(BuiltIn::Pareto)
    } else if text == "lexico" {
        Some(BuiltIn::Lexico)
    } else if text == "and" {
        Some(BuiltIn::And)
    } else if text == "neg" {
        Some(BuiltIn::Neg)
    } else {
        None
    }
}
