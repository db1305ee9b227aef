// Texts with the place of their fault, or none; texts with the canonical text of what they are read as.
ghost use Rattle.std.specs.Prelude.{◌≤◌, length};

use crate::parse_bytes;
use ap_lexemes::ParseFault;
use ap_syntax::print_program;
use std::alloc::Global;
use std::test::Fail;

// Texts that are at fault, with the byte at which they are, by the rules of the grammar that begin alike.
const FAULTS: [(&str, u32); 87] = [
    ("a b.", 2),
    ("a(1", 3),
    ("a().", 2),
    ("a(1,).", 4),
    ("-a.", 2),
    ("1.", 1),
    ("X.", 1),
    ("_.", 1),
    ("\"s\".", 3),
    ("(a).", 3),
    ("a+1.", 3),
    ("a..b.", 4),
    ("a < b.", 4),
    ("1 {a} b c.", 8),
    ("{a} <= .", 7),
    ("{a;}.", 3),
    ("{not a}.", 1),
    ("{a:b:c}.", 4),
    ("{1}.", 1),
    (":- .", 3),
    (":-a", 3),
    ("a :- b,", 7),
    ("a :- b,.", 7),
    ("a :- b; c", 9),
    ("a :- b : , c.", 9),
    ("a :- b : c, #count{} 1.", 12),
    ("a :- not not b.", 9),
    ("a :- not X.", 10),
    ("a :- X.", 6),
    ("a :- b < .", 9),
    ("a :- b < c < d.", 11),
    ("a :- #count{X : b} < .", 21),
    ("a :- #count{X; }.", 15),
    ("a :- #count{: b}.", 12),
    ("a :- #sum.", 9),
    ("a :- b #count{} c d.", 18),
    ("a :- #count.", 11),
    ("p(1 2).", 4),
    ("p(1..2..3).", 6),
    ("p(--1).", 3),
    ("p((,)).", 3),
    ("p((1,,2)).", 5),
    ("p(1+).", 4),
    ("p(a:b).", 3),
    ("p(not a).", 2),
    ("#const n.", 8),
    ("#const n == 1.", 9),
    ("#const n = X.", 11),
    ("#const n = 1+1.", 12),
    ("#const n = -a.", 12),
    ("#show a.", 7),
    ("#show a/.", 8),
    ("#show a/b.", 8),
    ("#show f(X).", 7),
    ("#show X.", 6),
    ("#defined.", 8),
    ("#program a.", 9),
    ("#program base", 13),
    ("#program preference.", 19),
    ("#program preference(t) a.", 23),
    ("#program preference(t). {a}.", 24),
    ("#program preference(t). :- a.", 24),
    ("#preference(p){a}.", 13),
    ("#preference(p,t).", 16),
    ("#preference(p,t){a}", 19),
    ("#preference(p,t){a >> }.", 22),
    ("#preference(p,t){a || b || c}.", 24),
    ("#preference(p,t){1}.", 18),
    ("#preference(p,t){1 :: }.", 22),
    ("#preference(p,t){a, b}.", 21),
    ("#preference(p,t){(a & b) :: c}.", 25),
    ("#preference(p,t){(a + b) & c}.", 25),
    ("#preference(p,t){a & }.", 21),
    ("#preference(p,t){not not a}.", 21),
    ("#preference(p,t){**1}.", 19),
    ("#preference(p,t){a : }.", 21),
    ("#preference(p,t){a : b; }.", 24),
    ("#preference(p,t(u){a}.", 18),
    ("#optimize p.", 10),
    ("#optimize(p,q).", 11),
    ("#optimize(p)", 12),
    ("a. b", 4),
    ("01.", 0),
    ("a :- \"x.", 5),
    ("a. #foo b.", 3),
    ("a :- b :- c.", 7),
    ("a,b.", 1),
];

// Texts that are not.
const TEXTS: [&str; 9] = [
    "a = {b}.",
    "{a:}.",
    "a :- 1 #count{}.",
    "a :- not b < #count{}.",
    "p((1,)).",
    "p(-X*2+1..-(-3)).",
    "#preference(p,t){((a))}.",
    "#preference(p,t){((a)) :: b >> not (c & d) | e || **q : f, g = h}.",
    "#program preference(t(u)). a :- b : c; d : . #program base. {a}.",
];

// The place of the fault, or none.
fn fault_of(alloc: Global, text: &str) -> Result<Option<u32>, Fail> {
    if text.len() > 16_777_216 {
        return Ok(None);
    }
    match parse_bytes(alloc, text.as_bytes(), 1) {
        Ok(_) => Ok(None),
        Err(
            ParseFault::Syntax { at }
            | ParseFault::Unsupported { at, .. }
            | ParseFault::Limit { at, .. },
        ) => Ok(Some(at)),
        Err(ParseFault::Memory) => Ok(None),
    }
}

#[test]
fn places_of_faults(rt: HostRuntime) -> Result<(), Fail> {
    for (text, at) in FAULTS {
        assert_eq!(rt; fault_of(rt.alloc(), text)?, Some(at), "{text}");
    }
    for text in TEXTS {
        assert_eq!(rt; fault_of(rt.alloc(), text)?, None, "{text}");
    }
    Ok(())
}

// Texts of each construct, with the canonical text of what they are read as.
const PRINTED: [(&str, &str); 30] = [
    ("p(X):-q(X),not r(X).", "p(X) :- q(X), not r(X).\n"),
    ("a. b:-a;c. % d.", "a.\nb :- a, c.\n"),
    (":-a.", ":- a.\n"),
    ("{}.", "{}.\n"),
    ("{a:}.", "{a}.\n"),
    (
        "1{a;p(X):q(X),not r}2:-b.",
        "1 <= {a; p(X) : q(X), not r} <= 2 :- b.\n",
    ),
    ("X<{a}!=(1).", "X < {a} != 1.\n"),
    ("a:-b:c,d;e.", "a :- b : c, d; e.\n"),
    ("a:-not b:;X=1:c.", "a :- not b : ; X = 1 : c.\n"),
    (
        "a:-X=1,X==2,X!=3,X<4,X<=5,X>6,X>=7.",
        "a :- X = 1, X = 2, X != 3, X < 4, X <= 5, X > 6, X >= 7.\n",
    ),
    ("a:-#count{},b.", "a :- #count{}, b.\n"),
    (
        "a:-not 2<#count{X,Y:p(X,Y),not q;1:}=Z.",
        "a :- not 2 < #count{X, Y : p(X, Y), not q; 1} = Z.\n",
    ),
    (
        "a:-1#sum{X:p(X)}>2;not#sum{3}4.",
        "a :- 1 <= #sum{X : p(X)} > 2, not #sum{3} <= 4.\n",
    ),
    ("p(1+2-3*4/5\\6).", "p(1 + 2 - 3 * 4 / 5 \\ 6).\n"),
    (
        "p((1+2)*3,1-(2-3),(1-2)-3,2*(3*4)).",
        "p((1 + 2) * 3, 1 - (2 - 3), 1 - 2 - 3, 2 * (3 * 4)).\n",
    ),
    (
        "p(-1,-(-X),-(1+2),(-a)*b).",
        "p(-1, -(-X), -(1 + 2), -a * b).\n",
    ),
    ("p(1..2+3,(1..2)..3,((4))).", "p(1..2 + 3, (1..2)..3, 4).\n"),
    (
        "p((),(1,),(1,2),((a,),)).",
        "p((), (1, ), (1, 2), ((a, ), )).\n",
    ),
    (
        "p(_,Xy,f(g,h(1)),base,preference).",
        "p(_, Xy, f(g, h(1)), base, preference).\n",
    ),
    (
        "p(\"\",\"a b\",\"\\\"\\\\\\n\",\"ä\").",
        "p(\"\", \"a b\", \"\\\"\\\\\\n\", \"ä\").\n",
    ),
    (
        "#const n=-1. #const s=\"t\".#const c=b.",
        "#const n = -1.\n#const s = \"t\".\n#const c = b.\n",
    ),
    (
        "#show. #show p/0.#defined q / 2.",
        "#show.\n#show p/0.\n#defined q/2.\n",
    ),
    ("#program base. a. #program base.", "a.\n"),
    (
        "#program preference(t(u)).a.#program preference(t).#program base.b.",
        "#program preference(t(u)).\na.\n#program preference(t).\n#program base.\nb.\n",
    ),
    (
        "#preference(p,t){}. #optimize( p ).",
        "#preference(p, t){}.\n#optimize(p).\n",
    ),
    (
        "#preference(p,less( w )){a;b(1)}.",
        "#preference(p, less(w)){a; b(1)}.\n",
    ),
    (
        "#preference(p,t){1,X+2::a>>b>>**q}.",
        "#preference(p, t){1, X + 2 :: a >> b >> **q}.\n",
    ),
    (
        "#preference(p,t){a||2::**q:e,not f,X<1}.",
        "#preference(p, t){a || 2 :: **q : e, not f, X < 1}.\n",
    ),
    (
        "#preference(p,t){a&b|not c&(d|e)|(f|g)}.",
        "#preference(p, t){a & b | not c & (d | e) | (f | g)}.\n",
    ),
    (
        "#preference(p,t){(a&b)&c;not((a));not(not a);((a&b)):c}.",
        "#preference(p, t){(a & b) & c; not a; not (not a); a & b : c}.\n",
    ),
];

// The canonical text of what a text is read as, and nothing where it is at fault.
fn printed(alloc: Global, text: &str) -> Result<String, Fail> {
    let mut out = String::new(alloc);
    if text.len() > 16_777_216 {
        return Ok(out);
    }
    if let Ok(program) = parse_bytes(alloc, text.as_bytes(), 1) {
        print_program(&program, &mut out)?;
    }
    Ok(out)
}

#[test]
fn prints_what_it_reads(rt: HostRuntime) -> Result<(), Fail> {
    for (text, canonical) in PRINTED {
        assert_eq!(rt; printed(rt.alloc(), text)?.as_str(), canonical, "{text}");
        assert_eq!(rt; printed(rt.alloc(), canonical)?.as_str(), canonical);
    }
    Ok(())
}
