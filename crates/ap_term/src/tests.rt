//! Arithmetic at the ends of the range, the order and the texts of a mixed list, and depths.
ghost use Rattle.std.specs.Prelude.{IsTrue};
ghost use Rattle.ap_term.specs.Table.{IsShapeOver};

use crate::{Args, ArithOp, Shape, TermFault, TermId, Terms, Text, arith, order_is_total};
use std::cmp::Ordering;
use std::process::Abort;
use std::test::Fail;

const MAX: i64 = 2_147_483_647;

static ARITHMETIC: [(ArithOp, i64, i64, Option<i64>); 25] = [
    (ArithOp::Add, MAX, 0, Some(MAX)),
    (ArithOp::Add, MAX, 1, None),
    (ArithOp::Add, -MAX, -1, None),
    (ArithOp::Add, i64::MAX, 1, None),
    (ArithOp::Sub, 0, MAX, Some(-MAX)),
    (ArithOp::Sub, -MAX, 1, None),
    (ArithOp::Mul, 46_340, 46_340, Some(2_147_395_600)),
    (ArithOp::Mul, 46_341, 46_341, None),
    (ArithOp::Mul, -65_536, 32_768, None),
    (ArithOp::Mul, MAX, -1, Some(-MAX)),
    (ArithOp::Div, 7, 2, Some(3)),
    (ArithOp::Div, -7, 2, Some(-3)),
    (ArithOp::Div, 7, -2, Some(-3)),
    (ArithOp::Div, -7, -2, Some(3)),
    (ArithOp::Div, MAX, -1, Some(-MAX)),
    (ArithOp::Div, 1, 0, None),
    (ArithOp::Div, i64::MIN, -1, None),
    (ArithOp::Rem, 7, 2, Some(1)),
    (ArithOp::Rem, -7, 2, Some(-1)),
    (ArithOp::Rem, 7, -2, Some(1)),
    (ArithOp::Rem, -7, -2, Some(-1)),
    (ArithOp::Rem, 7, 0, None),
    (ArithOp::Rem, -MAX, -1, Some(0)),
    (ArithOp::Rem, i64::MIN, -1, None),
    (ArithOp::Sub, MAX + 1, 1, None),
];

#[test]
fn arithmetic_at_the_ends_of_the_range(rt: HostRuntime) {
    for (op, a, b, want) in &ARITHMETIC {
        assert_eq!(rt; arith(*op, *a, *b), *want, "{op:?} of {a} and {b}");
    }
}

// A value, whose arguments are places in the list in which it stands.
enum Sample {
    Int(i64),
    Sym(&'static str),
    Str(&'static str),
    Fun(&'static str, &'static [usize]),
}

// Values in ascending order, with their texts.
static ASCENDING: [(Sample, &str); 23] = [
    (Sample::Int(-MAX), "-2147483647"),
    (Sample::Int(-3), "-3"),
    (Sample::Int(0), "0"),
    (Sample::Int(1), "1"),
    (Sample::Int(MAX), "2147483647"),
    (Sample::Sym("a"), "a"),
    (Sample::Sym("ab"), "ab"),
    (Sample::Sym("x'"), "x'"),
    (Sample::Str(""), "\"\""),
    (Sample::Str("B"), "\"B\""),
    (Sample::Str("a\\b\"c\n"), "\"a\\\\b\\\"c\\n\""),
    (Sample::Str("y"), "\"y\""),
    (Sample::Str("ö 木\r"), "\"ö 木\r\""),
    (Sample::Fun("", &[]), "()"),
    (Sample::Fun("", &[3]), "(1,)"),
    (Sample::Fun("f", &[2]), "f(0)"),
    (Sample::Fun("f", &[5]), "f(a)"),
    (Sample::Fun("g", &[0]), "g(-2147483647)"),
    (Sample::Fun("", &[2, 5]), "(0,a)"),
    (Sample::Fun("", &[7, 11]), "(x',\"y\")"),
    (Sample::Fun("f", &[1, 19]), "f(-3,(x',\"y\"))"),
    (Sample::Fun("f", &[2, 1]), "f(0,-3)"),
    (Sample::Fun("f", &[2, 2]), "f(0,0)"),
];

// The shape of a value.
fn shape_of(rt: &impl AllocGlobal, sample: &Sample, ids: &[TermId]) -> Result<Shape, Fail> {
    match sample {
        Sample::Int(n) => Ok(Shape::Int(*n)),
        Sample::Sym(name) => Ok(Shape::Sym(Text::new(rt.alloc(), name)?)),
        Sample::Str(text) => {
            let text = String::from_str(rt.alloc(), text)?;
            Ok(Shape::Str(Text::from_string(text)))
        }
        Sample::Fun(name, places) => Ok(Shape::Fun(
            Text::new(rt.alloc(), name)?,
            ids_at(rt, places, ids)?,
        )),
    }
}

fn ids_at(rt: &impl AllocGlobal, places: &[usize], ids: &[TermId]) -> Result<Args, Fail> {
    let mut found = Vec::new(rt.alloc());
    for place in places {
        found.push(*ids.get(*place).ok_or("no such place")?)?;
    }
    Ok(Args::from_vec(found))
}

// Whether the shape may be interned.
fn is_admitted(terms: &Terms, shape: &Shape) -> bool
    ensures { IsTrue result → IsShapeOver terms.now shape.now }
{
    match shape {
        Shape::Int(n) => -MAX <= *n && *n <= MAX,
        Shape::Fun(_, ids) => {
            let len = terms.len();
            ids.as_slice().iter().all(|id| id.0 < len)
        }
        _ => true,
    }
}

fn intern(rt: &impl Abort, terms: &mut Terms, shape: Shape) -> Result<TermId, TermFault> {
    assert!(rt; is_admitted(terms, &shape));
    terms.intern(shape)
}

fn intern_all(rt: &(impl Abort + AllocGlobal), terms: &mut Terms) -> Result<Vec<TermId>, Fail> {
    let mut ids = Vec::new(rt.alloc());
    for (sample, _) in &ASCENDING {
        let shape = shape_of(rt, sample, ids.as_slice())?;
        ids.push(intern(rt, terms, shape)?)?;
    }
    Ok(ids)
}

#[test]
fn each_value_has_one_number(rt: HostRuntime) -> Result<(), Fail> {
    let mut terms = Terms::new(rt.alloc());
    assert!(rt; terms.is_empty());
    let first = intern_all(&rt, &mut terms)?;
    let again = intern_all(&rt, &mut terms)?;
    assert_eq!(rt; first, again);
    assert_eq!(rt; terms.len(), 23);
    Ok(())
}

fn compare(rt: &impl Abort, terms: &Terms, a: TermId, b: TermId) -> Ordering {
    assert!(rt; a.0 < terms.len());
    assert!(rt; b.0 < terms.len());
    terms.compare(a, b)
}

#[test]
fn order_over_a_mixed_list(rt: HostRuntime) -> Result<(), Fail> {
    let mut terms = Terms::new(rt.alloc());
    let ids = intern_all(&rt, &mut terms)?;
    for (i, a) in ids.iter().enumerate() {
        for (j, b) in ids.iter().enumerate() {
            assert_eq!(rt; compare(&rt, &terms, *a, *b), i.cmp(&j), "{i} and {j}");
        }
    }
    order_is_total();
    Ok(())
}

fn printed(rt: &(impl Abort + AllocGlobal), terms: &Terms, id: TermId) -> Result<String, Fail> {
    assert!(rt; id.0 < terms.len());
    let mut out = String::from_str(rt.alloc(), "> ")?;
    terms.print(id, &mut out)?;
    Ok(out)
}

#[test]
fn printed_texts(rt: HostRuntime) -> Result<(), Fail> {
    let mut terms = Terms::new(rt.alloc());
    let ids = intern_all(&rt, &mut terms)?;
    for (id, (_, want)) in ids.iter().zip(&ASCENDING) {
        let text = printed(&rt, &terms, *id)?;
        assert_eq!(rt; text.as_str().strip_prefix("> "), Some(*want));
    }
    Ok(())
}

// `f` of these arguments.
fn f_of(
    rt: &(impl Abort + AllocGlobal),
    terms: &mut Terms,
    ids: &[TermId],
) -> Result<TermId, Fail> {
    let args = Args::from_vec(Vec::from_slice(rt.alloc(), ids)?);
    let shape = Shape::Fun(Text::new(rt.alloc(), "f")?, args);
    Ok(intern(rt, terms, shape)?)
}

fn depth(rt: &impl Abort, terms: &Terms, id: TermId) -> u8 {
    assert!(rt; id.0 < terms.len());
    terms.depth(id)
}

#[test]
fn depth_128_and_129(rt: HostRuntime) -> Result<(), Fail> {
    let mut terms = Terms::new(rt.alloc());
    let mut deepest = f_of(&rt, &mut terms, &[])?;
    for below in 1..128u8 {
        assert_eq!(rt; depth(&rt, &terms, deepest), below);
        deepest = f_of(&rt, &mut terms, &[deepest])?;
    }
    assert_eq!(rt; depth(&rt, &terms, deepest), 128);
    assert_eq!(rt; terms.len(), 128);
    let args = Args::from_vec(vec![in rt.alloc(); TermId(0), deepest]?);
    let too_deep = Shape::Fun(Text::new(rt.alloc(), "")?, args);
    assert_eq!(rt; intern(&rt, &mut terms, too_deep), Err(TermFault::TooDeep));
    assert_eq!(rt; terms.len(), 128);
    assert_eq!(rt; f_of(&rt, &mut terms, &[TermId(126)])?, deepest);
    Ok(())
}
