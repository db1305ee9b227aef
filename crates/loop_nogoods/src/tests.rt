// Two theories whose answers are known. The atoms a, b, c are 1, 2, 3, and 4 to 7 stand for bodies. Variable 8 is any
// other, so that its literals as supports join the theory to what it stands for. A literal is written as the number of its
// variable, which is negative where the literal is.
ghost use Rattle.std.specs.Prelude.{All, IfOk, IsTrue};
ghost use Rattle.theory_form.specs.declared.literals.Var.{Var as Variable};
ghost use Rattle.loop_nogoods.specs.Marks.{AreClear, IsVariable};

use crate::supports::is_variable;
use crate::{Tables, external, loop_valid, unfounded};
use sqlite_items::Items;
use std::alloc::{AllocError, Global};
use std::process::Abort;
use std::test::Fail;
use theory_form::{Assignment, Clause, Lit, Marks, Theory, Var, VarKind};

// Which of the two.
#[derive(Clone, Copy)]
enum Which {
    One,
    Two,
}

// The supports of the atoms, and the bodies.
struct Shape {
    supports: [&'static [i64]; 3],
    bodies: [&'static [i64]; 4],
}

// `a :- b. b :- a. b :- c. c.`
static ONE: Shape = Shape {
    supports: [&[4], &[5, 6], &[7]],
    bodies: [&[2], &[1], &[3], &[]],
};

// `a :- b. b :- a. b :- c, not a. c :- b.`, and c where variable 8 is false: two loops that share b.
static TWO: Shape = Shape {
    supports: [&[4], &[5, 6], &[4, -8]],
    bodies: [&[2], &[1], &[-1, 3], &[]],
};

fn literals(alloc: Global, numbers: &[i64]) -> Result<Vec<Lit>, AllocError> {
    let mut lits = Vec::new(alloc);
    for number in numbers {
        lits.push(Lit {
            var: Var(number.unsigned_abs()),
            yes: *number > 0,
        })?;
    }
    Ok(lits)
}

fn theory(rt: &impl Abort, alloc: Global, which: Which) -> Result<Theory, AllocError> {
    let shape = match which {
        Which::One => &ONE,
        Which::Two => &TWO,
    };
    let mut t = Theory::new(alloc);
    let block = t.add_block()?;
    for numbers in &shape.supports {
        assert!(rt; block < t.blocks());
        let supports = Items::from_vec(literals(alloc, numbers)?);
        t.add_var(VarKind::Atom { block, supports })?;
    }
    for numbers in &shape.bodies {
        let lits = Items::from_vec(literals(alloc, numbers)?);
        t.add_var(VarKind::Body { lits })?;
    }
    t.add_var(VarKind::Other)?;
    Ok(t)
}

fn assignment(rt: &impl Abort, alloc: Global, numbers: &[i64]) -> Result<Assignment, AllocError> {
    let mut a = Assignment::new(alloc);
    a.reserve(8)?;
    for l in &literals(alloc, numbers)? {
        assert!(rt; l.var.0 < a.places());
        a.set(*l);
    }
    Ok(a)
}

static UNFOUNDED: [(Which, &[i64], &[Var]); 13] = [
    (Which::One, &[], &[]),
    (Which::One, &[6], &[]),
    (Which::One, &[-6], &[Var(1), Var(2)]),
    (Which::One, &[-1, -6], &[]),
    (Which::One, &[-1, -5, -6], &[Var(2)]),
    (Which::One, &[-2, -6], &[]),
    (Which::One, &[-7], &[Var(1), Var(2), Var(3)]),
    (Which::Two, &[], &[]),
    (Which::Two, &[-8], &[]),
    (Which::Two, &[8], &[Var(1), Var(2), Var(3)]),
    (Which::Two, &[-6], &[Var(1), Var(2)]),
    (Which::Two, &[-3, 8], &[]),
    (Which::Two, &[-3, -6, 8], &[Var(1), Var(2)]),
];

#[test]
fn loops_whose_outside_support_is_false_true_or_unassigned(rt: HostRuntime) -> Result<(), Fail> {
    let alloc = rt.alloc();
    let mut tables = Tables::new(alloc);
    for (which, values, want) in &UNFOUNDED {
        let t = theory(&rt, alloc, *which)?;
        let a = assignment(&rt, alloc, values)?;
        match unfounded(alloc, &t, 0, &a, &mut tables)? {
            None => assert!(rt; want.is_empty(), "at {values:?}"),
            Some(vars) => assert_eq!(rt; vars.as_slice(), *want, "at {values:?}"),
        }
        assert!(rt; unfounded(alloc, &t, 1, &a, &mut tables)?.is_none());
    }
    Ok(())
}

fn clear_marks(alloc: Global, t: &Theory) -> Result<Marks, AllocError>
    ensures { IfOk result (AreClear t.now) }
{
    let mut marks = Marks::new(alloc);
    marks.reserve(t.var_count())?;
    Ok(marks)
}

fn are_variables(t: &Theory, u: &[Var]) -> bool
    ensures { IsTrue result → All (λ (v : Variable). IsVariable t.now v.0) u.now }
{
    u.iter().all(|v| is_variable(t, *v))
}

static EXTERNAL: [(Which, &[Var], &[i64]); 7] = [
    (Which::One, &[], &[]),
    (Which::One, &[Var(1)], &[4]),
    (Which::One, &[Var(2), Var(1)], &[6]),
    (Which::One, &[Var(1), Var(2), Var(3)], &[7]),
    (Which::Two, &[Var(3), Var(1)], &[4, -8]),
    (Which::Two, &[Var(2), Var(3)], &[5, -8]),
    (Which::Two, &[Var(1), Var(2), Var(3)], &[-8]),
];

#[test]
fn supports_inside_and_outside(rt: HostRuntime) -> Result<(), Fail> {
    let alloc = rt.alloc();
    for (which, u, want) in &EXTERNAL {
        let t = theory(&rt, alloc, *which)?;
        let mut marks = clear_marks(alloc, &t)?;
        assert!(rt; are_variables(&t, u));
        let lits = external(alloc, &t, u, &mut marks)?;
        let want = literals(alloc, want)?;
        assert_eq!(rt; lits.as_slice(), want.as_slice(), "of {u:?}");
    }
    Ok(())
}

static VALID: [(Which, Var, &[Var], &[i64], bool); 12] = [
    (Which::One, Var(1), &[Var(1), Var(2)], &[-1, 6], true),
    (Which::One, Var(2), &[Var(1), Var(2)], &[-2, 6], true),
    (Which::One, Var(3), &[Var(1), Var(2)], &[-3, 6], false),
    (Which::One, Var(1), &[Var(1), Var(2)], &[6], false),
    (Which::One, Var(1), &[Var(1), Var(2)], &[-1], false),
    (Which::One, Var(1), &[Var(1), Var(2)], &[-1, 4, 6], false),
    (Which::One, Var(1), &[Var(1), Var(2)], &[-1, 6, 7], false),
    (Which::One, Var(1), &[Var(1), Var(2)], &[-1, 6, -6], false),
    (Which::One, Var(1), &[Var(1), Var(6)], &[-1, 4], false),
    (Which::Two, Var(3), &[Var(1), Var(3)], &[-3, 4, -8], true),
    (Which::Two, Var(3), &[Var(1), Var(3)], &[-3, 4, 8], false),
    (
        Which::Two,
        Var(3),
        &[Var(1), Var(3)],
        &[-3, 4, -8, 9],
        false,
    ),
];

#[test]
fn loop_clauses_and_others(rt: HostRuntime) -> Result<(), Fail> {
    let alloc = rt.alloc();
    for (which, a, u, numbers, want) in &VALID {
        let t = theory(&rt, alloc, *which)?;
        let mut marks = clear_marks(alloc, &t)?;
        let c = Clause::sorted(literals(alloc, numbers)?)?;
        assert_eq!(rt; loop_valid(&t, *a, u, &c, &mut marks), *want, "{numbers:?}");
    }
    Ok(())
}
