// The programs of the types. Each row stands as its rule is written.
ghost use Rattle.std.specs.Prelude.{◌≡◌, map, Some};
ghost use Rattle.pref_library.specs.Programs as programs;
ghost use Rattle.pref_library.specs.Rows.{rows_rules, rows_statements};

use crate::rows::{AtomRow, ElementRow, ItemRow, LiteralRow, Passage, RuleRow, TermRow};
use ap_syntax::Rel;
use pref_kinds::BuiltIn;

const ANY: TermRow = TermRow::Any;

const A: TermRow = TermRow::Var("A");

const F: TermRow = TermRow::Var("F");

const G: TermRow = TermRow::Var("G");

const I: TermRow = TermRow::Var("I");

const M: TermRow = TermRow::Var("M");

const N: TermRow = TermRow::Var("N");

const P: TermRow = TermRow::Var("P");

const Q: TermRow = TermRow::Var("Q");

const R: TermRow = TermRow::Var("R");

const S: TermRow = TermRow::Var("S");

const U: TermRow = TermRow::Var("U");

const V: TermRow = TermRow::Var("V");

const W: TermRow = TermRow::Var("W");

const FOR_F: TermRow = TermRow::Apply("for", "F");

const NAME_Q: TermRow = TermRow::Apply("name", "Q");

const ZERO: TermRow = TermRow::Number(0);

const ONE: TermRow = TermRow::Number(1);

// `name(terms)`
macro_rules! atom {
    ($name:expr, $($term:expr),+) => {
        AtomRow { name: $name, terms: &[$($term),+] }
    };
}

// an atom, and the negation of one, in a condition
macro_rules! if_yes {
    ($name:expr, $($term:expr),+) => { LiteralRow::Yes(atom!($name, $($term),+)) };
}

// an atom, and the negation of one, in a body
macro_rules! yes {
    ($name:expr, $($term:expr),+) => { ItemRow::Plain(LiteralRow::Yes(atom!($name, $($term),+))) };
}

macro_rules! no {
    ($name:expr, $($term:expr),+) => { ItemRow::Plain(LiteralRow::No(atom!($name, $($term),+))) };
}

// a comparison in a body
macro_rules! compare {
    ($left:expr, $rel:expr, $right:expr) => { ItemRow::Plain(LiteralRow::Compare($left, $rel, $right)) };
}

// `head :- body.`
macro_rules! rule {
    ($head:expr; $($item:expr),+) => { RuleRow { head: $head, body: &[$($item),+] } };
}

// `subset`, where the first name tells the formulas of the one set, and the second those of the other
macro_rules! part_rules {
    ($holds:expr, $other:expr) => {
        &[
            rule!(atom!("new", P); yes!("preference", P, ANY, ANY, FOR_F, ANY), yes!($holds, F), no!($other, F)),
            rule!(atom!("old", P); yes!("preference", P, ANY, ANY, FOR_F, ANY), yes!($other, F), no!($holds, F)),
            rule!(atom!("better", P); yes!("preference", P, ANY), yes!("old", P), no!("new", P)),
            rule!(atom!("bettereq", P); yes!("preference", P, ANY), no!("new", P)),
            rule!(atom!("eq", P); yes!("preference", P, ANY), no!("new", P), no!("old", P)),
        ]
    };
}

// the elements of the sum of `less(cardinality)`
macro_rules! counted {
    ($holds:expr, $other:expr) => {
        &[
            ElementRow {
                terms: &[ONE, F, TermRow::Name("o")],
                condition: &[if_yes!("preference", P, ANY, ANY, FOR_F, ANY), if_yes!($other, F)],
            },
            ElementRow {
                terms: &[TermRow::MinusNumber(1), F, TermRow::Name("n")],
                condition: &[if_yes!("preference", P, ANY, ANY, FOR_F, ANY), if_yes!($holds, F)],
            },
        ]
    };
}

// the elements of the sum of `less(weight)`
macro_rules! weighted {
    ($holds:expr, $other:expr) => {
        &[
            ElementRow {
                terms: &[N, W, F, TermRow::Name("o")],
                condition: &[
                    if_yes!("preference", P, ANY, ANY, FOR_F, W),
                    if_yes!("weight", W, N),
                    if_yes!($other, F),
                ],
            },
            ElementRow {
                terms: &[TermRow::MinusVar("N"), W, F, TermRow::Name("n")],
                condition: &[
                    if_yes!("preference", P, ANY, ANY, FOR_F, W),
                    if_yes!("weight", W, N),
                    if_yes!($holds, F),
                ],
            },
        ]
    };
}

// three rules that compare a sum with 0
macro_rules! sum_rules {
    ($elements:expr) => {
        &[
            rule!(atom!("better", P); yes!("preference", P, ANY), ItemRow::Sum(1, Rel::Le, $elements)),
            rule!(atom!("bettereq", P); yes!("preference", P, ANY), ItemRow::Sum(0, Rel::Le, $elements)),
            rule!(atom!("eq", P); yes!("preference", P, ANY), ItemRow::Sum(0, Rel::Eq, $elements)),
        ]
    };
}

// the rules of `aso` for one of the two sets
macro_rules! side_rules {
    ($act:expr, $hit:expr, $early:expr, $deg:expr, $some:expr, $holds:expr) => {
        &[
            rule!(atom!($act, P, I); yes!("preference", P, I, ZERO, FOR_F, ANY), yes!($holds, F)),
            rule!(atom!($act, P, I); yes!("preference", P, I, ONE, ANY, ANY), no!("cond", P, I)),
            rule!(atom!($hit, P, I, R);
                yes!("preference", P, I, R, FOR_F, ANY), compare!(R, Rel::Gt, ZERO), yes!($act, P, I), yes!($holds, F)),
            rule!(atom!($early, P, I, R);
                yes!("preference", P, I, R, ANY, ANY), yes!($hit, P, I, S), compare!(S, Rel::Lt, R)),
            rule!(atom!($deg, P, I, R); yes!($hit, P, I, R), no!($early, P, I, R)),
            rule!(atom!($deg, P, I, ONE); yes!("preference", P, I, ONE, ANY, ANY), no!($some, P, I)),
        ]
    };
}

// the rules of `cp` that tell the states that are not the one of a set
macro_rules! off_rules {
    ($off:expr, $holds:expr) => {
        &[
            rule!(atom!($off, U); yes!("state", U), yes!("net", A), yes!($holds, A), no!("bit", U, A)),
            rule!(atom!($off, U); yes!("bit", U, A), no!($holds, A)),
        ]
    };
}

// `head(P) :- preference(P,_), relation(Q) : named(P,Q).`
macro_rules! in_all {
    ($head:expr, $relation:expr) => {
        rule!(atom!($head, P); yes!("preference", P, ANY), ItemRow::All(atom!($relation, Q), &[if_yes!("named", P, Q)]))
    };
}

// `head(P) :- preference(P,_,_,name(Q),_), relation(Q).`
macro_rules! in_one {
    ($head:expr, $relation:expr) => {
        rule!(atom!($head, P); yes!("preference", P, ANY, ANY, NAME_Q, ANY), yes!($relation, Q))
    };
}

const SUBSET: &[RuleRow] = part_rules!("holds", "holds'");

const SUPERSET: &[RuleRow] = part_rules!("holds'", "holds");

const LESS_CARDINALITY: &[RuleRow] = sum_rules!(counted!("holds", "holds'"));

const MORE_CARDINALITY: &[RuleRow] = sum_rules!(counted!("holds'", "holds"));

const LESS_WEIGHT: &[RuleRow] = sum_rules!(weighted!("holds", "holds'"));

const MORE_WEIGHT: &[RuleRow] = sum_rules!(weighted!("holds'", "holds"));

const ASO_NEW: &[RuleRow] = side_rules!("act", "hit", "early", "deg", "some", "holds");

const ASO_OLD: &[RuleRow] = side_rules!("act'", "hit'", "early'", "deg'", "some'", "holds'");

const ASO: &[RuleRow] = &[
    rule!(atom!("some", P, I); yes!("hit", P, I, ANY)),
    rule!(atom!("some'", P, I); yes!("hit'", P, I, ANY)),
    rule!(atom!("cond", P, I); yes!("preference", P, I, ZERO, ANY, ANY)),
    rule!(atom!("up", P); yes!("deg", P, I, R), yes!("deg'", P, I, S), compare!(R, Rel::Lt, S)),
    rule!(atom!("down", P); yes!("deg", P, I, R), yes!("deg'", P, I, S), compare!(R, Rel::Gt, S)),
    rule!(atom!("better", P); yes!("preference", P, ANY), yes!("up", P), no!("down", P)),
    rule!(atom!("bettereq", P); yes!("preference", P, ANY), no!("down", P)),
    rule!(atom!("eq", P); yes!("preference", P, ANY), no!("up", P), no!("down", P)),
];

const POSET: &[RuleRow] = &[
    rule!(atom!("new", P, F); yes!("preference", P, ANY, ANY, FOR_F, ANY), yes!("holds", F), no!("holds'", F)),
    rule!(atom!("old", P, F); yes!("preference", P, ANY, ANY, FOR_F, ANY), yes!("holds'", F), no!("holds", F)),
    rule!(atom!("cov", P, G); yes!("old", P, G), yes!("greater", F, G), yes!("new", P, F)),
    rule!(atom!("bad", P); yes!("old", P, F), no!("cov", P, F)),
    rule!(atom!("diff", P); yes!("new", P, ANY)),
    rule!(atom!("diff", P); yes!("old", P, ANY)),
    rule!(atom!("better", P); yes!("preference", P, ANY), yes!("diff", P), no!("bad", P)),
    rule!(atom!("bettereq", P); yes!("preference", P, ANY), no!("bad", P)),
    rule!(atom!("eq", P); yes!("preference", P, ANY), no!("diff", P)),
];

const OFF_NEW: &[RuleRow] = off_rules!("off", "holds");

const OFF_OLD: &[RuleRow] = off_rules!("off'", "holds'");

const CP: &[RuleRow] = &[
    rule!(atom!("better", P); yes!("preference", P, ANY), yes!("path", U, V), no!("off'", U), no!("off", V)),
    rule!(atom!("eq", P); yes!("preference", P, ANY), yes!("state", U), no!("off", U), no!("off'", U)),
];

const EITHER: &[RuleRow] = &[
    rule!(atom!("bettereq", P); yes!("preference", P, ANY), yes!("better", P)),
    rule!(atom!("bettereq", P); yes!("preference", P, ANY), yes!("eq", P)),
];

const NAMED: &[RuleRow] = &[
    rule!(atom!("named", P, Q); yes!("preference", P, ANY, ANY, NAME_Q, ANY)),
];

const PARETO: &[RuleRow] = &[
    in_all!("bettereq", "bettereq_in"),
    rule!(atom!("better", P); yes!("bettereq", P), yes!("named", P, Q), yes!("better_in", Q)),
    in_all!("eq", "eq_in"),
];

const LEXICO: &[RuleRow] = &[
    rule!(atom!("at", P, Q, N); yes!("preference", P, ANY, ANY, NAME_Q, W), yes!("weight", W, N)),
    rule!(atom!("level", P, N); yes!("at", P, ANY, N)),
    rule!(atom!("tied", P, N);
        yes!("level", P, N),
        ItemRow::All(atom!("eq_in", Q), &[if_yes!("at", P, Q, M), LiteralRow::Compare(M, Rel::Gt, N)])),
    rule!(atom!("fine", P, N);
        yes!("level", P, N), ItemRow::All(atom!("bettereq_in", Q), &[if_yes!("at", P, Q, N)])),
    rule!(atom!("better", P); yes!("at", P, Q, N), yes!("better_in", Q), yes!("fine", P, N), yes!("tied", P, N)),
    rule!(atom!("eq", P);
        yes!("preference", P, ANY), ItemRow::All(atom!("eq_in", Q), &[if_yes!("at", P, Q, ANY)])),
];

const AND: &[RuleRow] = &[in_all!("eq", "eq_in"), in_all!("better", "better_in")];

const NEG: &[RuleRow] = &[in_one!("better", "worse_in"), in_one!("eq", "eq_in")];

macro_rules! passages {
    ($($rules:expr),+) => { &[$(Passage { rules: $rules }),+] };
}

const SUBSET_PROGRAM: &[Passage] = passages!(SUBSET);

const SUPERSET_PROGRAM: &[Passage] = passages!(SUPERSET);

const LESS_CARDINALITY_PROGRAM: &[Passage] = passages!(LESS_CARDINALITY);

const MORE_CARDINALITY_PROGRAM: &[Passage] = passages!(MORE_CARDINALITY);

const LESS_WEIGHT_PROGRAM: &[Passage] = passages!(LESS_WEIGHT);

const MORE_WEIGHT_PROGRAM: &[Passage] = passages!(MORE_WEIGHT);

const ASO_PROGRAM: &[Passage] = passages!(ASO_NEW, ASO_OLD, ASO);

const POSET_PROGRAM: &[Passage] = passages!(POSET);

const CP_PROGRAM: &[Passage] = passages!(OFF_NEW, OFF_OLD, CP, EITHER);

const PARETO_PROGRAM: &[Passage] = passages!(NAMED, PARETO);

const LEXICO_PROGRAM: &[Passage] = passages!(LEXICO, EITHER);

const AND_PROGRAM: &[Passage] = passages!(NAMED, AND, EITHER);

const NEG_PROGRAM: &[Passage] = passages!(NEG, EITHER);

/// The rows of a type's program.
pub(crate) fn rows_of(kind: BuiltIn) -> &'static [Passage]
    ensures rules { rows_rules result.now ≡ programs.rules_of kind }
    ensures statements { rows_statements result.now ≡ map Some (programs.rules_of kind) }
{
    match kind {
        BuiltIn::Subset => SUBSET_PROGRAM,
        BuiltIn::Superset => SUPERSET_PROGRAM,
        BuiltIn::LessCardinality => LESS_CARDINALITY_PROGRAM,
        BuiltIn::MoreCardinality => MORE_CARDINALITY_PROGRAM,
        BuiltIn::LessWeight => LESS_WEIGHT_PROGRAM,
        BuiltIn::MoreWeight => MORE_WEIGHT_PROGRAM,
        BuiltIn::Aso => ASO_PROGRAM,
        BuiltIn::Poset => POSET_PROGRAM,
        BuiltIn::Cp => CP_PROGRAM,
        BuiltIn::Pareto => PARETO_PROGRAM,
        BuiltIn::Lexico => LEXICO_PROGRAM,
        BuiltIn::And => AND_PROGRAM,
        BuiltIn::Neg => NEG_PROGRAM,
    }
}
