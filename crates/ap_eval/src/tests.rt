// Ground programs and sets whose answers are known. In the comments, `not a` is the default negation of `a`, and the atoms
// a, b, c are 1, 2, 3.
ghost use Rattle.std.specs.Prelude.{◌↔◌, All, Contains, IsTrue};
ghost use Rattle.ground_form.specs.Acyclic.{IsOne};
ghost use Rattle.ground_form.specs.declared.rules.GroundRule.{GroundRule as Ground};

use crate::{acyclic_model, body_true, is_acyclic, is_answer_set};
use ap_term::TermId;
use ground_form::{
    AtomId, AtomSet, Body, BodyId, GroundProgram, GroundRule, Group, GroupGuard, GroupRow,
    GuardRel, GuardUse, Head, is_ascending, is_in_range,
};
use sqlite_items::Items;
use std::alloc::{AllocError, Global};
use std::process::Abort;
use std::test::Fail;

const A: Head = Head::One(AtomId(1));

const B: Head = Head::One(AtomId(2));

const ANY_A: Head = Head::Choice(AtomId(1));

const ANY_B: Head = Head::Choice(AtomId(2));

const ANY_C: Head = Head::Choice(AtomId(3));

const NEVER: Head = Head::Nothing;

/// A head, the literals of its body, and the guards of its body.
type Line<'a> = (Head, &'a [i64], &'a [GuardUse]);

fn body(alloc: Global, line: &Line) -> Result<Body, AllocError> {
    Ok(Body {
        lits: Items::from_slice(alloc, line.1)?,
        guards: Items::from_slice(alloc, line.2)?,
        always: false,
        never: false,
    })
}

/// The program of these lines over the atoms 1 to 3, with one group.
fn program(
    rt: &impl Abort,
    alloc: Global,
    lines: &[Line],
    group: Group,
    inputs: Vec<AtomId>,
) -> Result<GroundProgram, AllocError> {
    let mut rules = Vec::new(alloc);
    let mut bodies = Vec::new(alloc);
    let mut number = BodyId(1);
    for line in lines {
        rules.push(GroundRule {
            head: line.0,
            body: number,
        })?;
        bodies.push(body(alloc, line)?)?;
        number = BodyId(number.0.wrapping_add(1));
    }
    let atoms = vec![in alloc; TermId(1), TermId(2), TermId(3)]?;
    let groups = vec![in alloc; group]?;
    assert!(rt; is_in_range(&atoms, &rules, &bodies, &groups, &inputs));
    Ok(GroundProgram::new(atoms, rules, bodies, groups, inputs))
}

/// `-2 : a; 3 : b; 3 : not c, b`, where the last two are conditions of one tuple.
fn group(
    alloc: Global,
    left: Option<GroupGuard>,
    right: Option<GroupGuard>,
) -> Result<Group, AllocError> {
    let a = Items::from_slice(alloc, [1].as_slice())?;
    let b = Items::from_slice(alloc, [2].as_slice())?;
    let both = Items::from_slice(alloc, [-3, 2].as_slice())?;
    let down = GroupRow {
        weight: Some(-2),
        conditions: Items::from_vec(vec![in alloc; a]?),
    };
    let up = GroupRow {
        weight: Some(3),
        conditions: Items::from_vec(vec![in alloc; b, both]?),
    };
    Ok(Group {
        rows: Items::from_vec(vec![in alloc; down, up]?),
        left,
        right,
    })
}

fn set(rt: &impl Abort, alloc: Global, numbers: &[u64]) -> Result<AtomSet, AllocError> {
    let mut ids = Vec::new(alloc);
    for number in numbers {
        ids.push(AtomId(*number))?;
    }
    assert!(rt; is_ascending(&ids));
    Ok(AtomSet::new(ids))
}

/// Decides each set, and says whether it is an answer set of the lines.
fn decides(
    rt: &impl Abort,
    alloc: Global,
    lines: &[Line],
    group: Group,
    cases: &[(&[u64], bool)],
) -> Result<(), AllocError> {
    let g = program(rt, alloc, lines, group, Vec::new(alloc))?;
    for (numbers, answer) in cases {
        let x = set(rt, alloc, numbers)?;
        assert_eq!(rt; is_answer_set(alloc, &g, &x)?, *answer, "at {numbers:?}");
    }
    Ok(())
}

/// Loops through negation, a positive loop without and with support from outside, a choice, a constraint, and a rule with
/// an aggregate over its own head, `a :- group >= 1. {b}.`.
#[test]
fn loops(rt: HostRuntime) -> Result<(), Fail> {
    let alloc = rt.alloc();
    let no = [].as_slice();
    let even: [Line; 2] = [(A, &[-2], no), (B, &[-1], no)];
    let odd: [Line; 1] = [(A, &[-1], no)];
    let alone: [Line; 2] = [(A, &[2], no), (B, &[1], no)];
    let supported: [Line; 5] = [
        (A, &[2], no),
        (B, &[1], no),
        (A, &[3], no),
        (ANY_C, &[], no),
        (NEVER, &[-1], no),
    ];
    let at_least_one = [GuardUse {
        group: 1,
        guard: 0,
        yes: true,
    }];
    let sum: [Line; 2] = [(A, &[], at_least_one.as_slice()), (ANY_B, &[], no)];
    let table: [(&[Line], &[(&[u64], bool)]); 5] = [
        (
            &even,
            &[(&[], false), (&[1], true), (&[2], true), (&[1, 2], false)],
        ),
        (&odd, &[(&[], false), (&[1], false)]),
        (&alone, &[(&[], true), (&[1, 2], false)]),
        (
            &supported,
            &[
                (&[], false),
                (&[1, 2], false),
                (&[1, 2, 3], true),
                (&[1, 2, 3, 4], false),
            ],
        ),
        (
            &sum,
            &[
                (&[], true),
                (&[1], false),
                (&[2], false),
                (&[1, 2], true),
                (&[0, 1, 2], false),
            ],
        ),
    ];
    let left = Some(GroupGuard::Compare(GuardRel::Ge, 1));
    for (lines, cases) in table {
        decides(&rt, alloc, lines, group(alloc, left, None)?, cases)?;
    }
    Ok(())
}

/// `{a; b}.` and a constraint on the sum of `group`, which is 0, -2, 3 and 1 in the four sets.
#[test]
fn guards(rt: HostRuntime) -> Result<(), Fail> {
    let alloc = rt.alloc();
    let at_least_one = Some(GroupGuard::Compare(GuardRel::Ge, 1));
    let below_three = Some(GroupGuard::Compare(GuardRel::Lt, 3));
    let table = [
        (0, true, below_three, [true, true, false, false]),
        (1, true, below_three, [false, false, true, false]),
        (2, true, below_three, [true, true, true, false]),
        (2, false, below_three, [false, false, false, true]),
        (1, true, Some(GroupGuard::Fixed(true)), [false; 4]),
        (1, false, Some(GroupGuard::Fixed(true)), [true; 4]),
    ];
    for (guard, yes, right, answers) in table {
        let used = [GuardUse {
            group: 1,
            guard,
            yes,
        }];
        let lines = [
            (ANY_A, [].as_slice(), [].as_slice()),
            (ANY_B, [].as_slice(), [].as_slice()),
            (NEVER, [].as_slice(), used.as_slice()),
        ];
        let cases = [
            ([].as_slice(), answers[0]),
            ([1].as_slice(), answers[1]),
            ([2].as_slice(), answers[2]),
            ([1, 2].as_slice(), answers[3]),
        ];
        decides(
            &rt,
            alloc,
            lines.as_slice(),
            group(alloc, at_least_one, right)?,
            cases.as_slice(),
        )?;
    }
    Ok(())
}

#[test]
fn a_body(rt: HostRuntime) -> Result<(), Fail> {
    let alloc = rt.alloc();
    let lines = [(A, [-2, 3].as_slice(), [].as_slice())];
    let g = program(
        &rt,
        alloc,
        lines.as_slice(),
        group(alloc, None, None)?,
        Vec::new(alloc),
    )?;
    assert!(rt; body_true(&g, BodyId(1), &set(&rt, alloc, [3].as_slice())?));
    assert!(rt; !body_true(&g, BodyId(1), &set(&rt, alloc, [2, 3].as_slice())?));
    Ok(())
}

/// Whether each rule is for an atom.
fn has_atom_heads(rules: &[GroundRule]) -> bool
    ensures { IsTrue result ↔ All (λ (rule : Ground). IsOne rule.head) rules.now }
{
    rules.iter().all(|rule| matches!(rule.head, Head::One(_)))
}

/// Whether an atom is an input.
fn is_input(inputs: &[AtomId], atom: AtomId) -> bool
    ensures { IsTrue result ↔ Contains inputs.now atom }
{
    inputs.contains(&atom)
}

/// Whether there is no atom, or one that is an input.
fn is_input_alone(inputs: &[AtomId], atoms: &[AtomId]) -> bool
    ensures { IsTrue result → All (Contains inputs.now) atoms.now }
{
    match atoms {
        [] => true,
        [only] => is_input(inputs, *only),
        _ => false,
    }
}

/// Whether there is no fact, or one that is an input of the program.
fn are_facts(g: &GroundProgram, facts: &AtomSet) -> bool
    ensures { IsTrue result → All (Contains g.now.inputs) facts.now }
{
    is_input_alone(g.inputs(), facts.ids())
}

/// `a :- not b. b :- c.` with sets of the inputs a and c, and the set that follows.
#[test]
fn acyclic_models(rt: HostRuntime) -> Result<(), Fail> {
    let alloc = rt.alloc();
    let no = [].as_slice();
    let lines = [(A, [-2].as_slice(), no), (B, [3].as_slice(), no)];
    let inputs = vec![in alloc; AtomId(1), AtomId(3)]?;
    let g = program(
        &rt,
        alloc,
        lines.as_slice(),
        group(alloc, None, None)?,
        inputs,
    )?;
    assert!(rt; is_acyclic(alloc, &g)?);
    assert!(rt; has_atom_heads(g.rules()));
    let table = [
        ([].as_slice(), [1].as_slice()),
        ([3].as_slice(), [2, 3].as_slice()),
        ([1].as_slice(), [1].as_slice()),
    ];
    for (facts, answer) in table {
        let facts = set(&rt, alloc, facts)?;
        assert!(rt; are_facts(&g, &facts));
        let x = acyclic_model(alloc, &g, &facts)?;
        assert_eq!(rt; x.ids(), set(&rt, alloc, answer)?.ids());
    }
    Ok(())
}

/// Loops through negation, through a choice's atom and through a group; and a chain behind which a constraint stands.
#[test]
fn acyclic_programs(rt: HostRuntime) -> Result<(), Fail> {
    let alloc = rt.alloc();
    let no = [].as_slice();
    let counted = [GuardUse {
        group: 1,
        guard: 0,
        yes: true,
    }];
    let table: [(&[Line], bool); 5] = [
        (&[(A, [2].as_slice(), no), (B, [-1].as_slice(), no)], false),
        (&[(ANY_A, [1].as_slice(), no)], false),
        (&[(A, [].as_slice(), counted.as_slice())], false),
        (&[(ANY_B, [].as_slice(), no), (A, [2].as_slice(), no)], true),
        (
            &[(A, [2].as_slice(), no), (NEVER, [1, 2].as_slice(), no)],
            true,
        ),
    ];
    for (lines, answer) in table {
        let left = Some(GroupGuard::Compare(GuardRel::Ge, 1));
        let g = program(
            &rt,
            alloc,
            lines,
            group(alloc, left, None)?,
            Vec::new(alloc),
        )?;
        assert_eq!(rt; is_acyclic(alloc, &g)?, answer);
    }
    Ok(())
}
