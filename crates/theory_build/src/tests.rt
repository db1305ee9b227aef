// What no clause says: that the calls succeed with ample memory. The clauses are those of the small programs.
ghost use Rattle.std.specs.Prelude.{◌≡◌, IfOk, IfSome, length};

use crate::{append, complete, exclude};
use ap_term::TermId;
use ground_form::{
    AtomId, AtomSet, Body, BodyId, GroundProgram, GroundRule, Group, GroupGuard, GroupRow,
    GuardRel, GuardUse, Head, is_ascending, is_in_range,
};
use sqlite_items::Items;
use std::alloc::{AllocError, Global};
use std::test::Fail;
use theory_form::{ClauseId, Lit, Theory, Var};

// A literal as a number, negative for a negation.
fn literal(number: i64) -> Lit {
    Lit {
        var: Var(number.unsigned_abs()),
        yes: number > 0,
    }
}

// Whether the clause of a number has these literals. A row ends at its first 0.
fn has_clause(theory: &Theory, id: u64, row: &[i64]) -> bool {
    let Some(clause) = theory.clause(ClauseId(id)) else {
        return false;
    };
    let lits = clause.lits();
    for (place, number) in row.iter().enumerate() {
        if *number == 0 {
            return lits.len() == place;
        }
        if lits.get(place).copied() != Some(literal(*number)) {
            return false;
        }
    }
    lits.len() == row.len()
}

// Whether the clauses from a number on, and up to the last, are these.
fn ends_with(theory: &Theory, from: u64, rows: &[[i64; 3]]) -> bool {
    for (place, row) in rows.iter().enumerate() {
        if !has_clause(theory, from.saturating_add(place as u64), row.as_slice()) {
            return false;
        }
    }
    theory.next_id() == ClauseId(from.saturating_add(rows.len() as u64))
}

fn body(alloc: Global, lits: &[i64], guards: &[GuardUse]) -> Result<Body, AllocError> {
    Ok(Body {
        lits: Items::from_slice(alloc, lits)?,
        guards: Items::from_slice(alloc, guards)?,
        always: false,
        never: false,
    })
}

fn row(alloc: Global, weight: i64, condition: &[i64]) -> Result<GroupRow, AllocError> {
    let condition = Items::from_slice(alloc, condition)?;
    Ok(GroupRow {
        weight: Some(weight),
        conditions: Items::from_vec(vec![in alloc; condition]?),
    })
}

// The program of these rules and bodies, over so many atoms, if its numbers are in range. Its inputs are these atoms.
fn program(
    alloc: Global,
    atoms: u64,
    rules: &[GroundRule],
    bodies: Vec<Body>,
    groups: Vec<Group>,
    inputs: &[AtomId],
) -> Result<Option<GroundProgram>, AllocError>
    ensures inputs { IfOk result (λ o. IfSome o (λ g. g.inputs ≡ inputs.now)) }
    ensures atoms { IfOk result (λ o. IfSome o (λ g. length g.atoms ≡ atoms)) }
{
    let atoms: Vec<TermId> = (0..atoms).map(|number| TermId(number)).collect(alloc)?;
    let rules = Vec::from_slice(alloc, rules)?;
    let inputs = Vec::from_slice(alloc, inputs)?;
    if is_in_range(&atoms, &rules, &bodies, &groups, &inputs) {
        Ok(Some(GroundProgram::new(atoms, rules, bodies, groups, inputs)))
    } else {
        Ok(None)
    }
}

fn rule(head: Head, body: u64) -> GroundRule {
    GroundRule {
        head,
        body: BodyId(body),
    }
}

// `{a; b}. :- not a, not b.`
fn pair(alloc: Global) -> Result<Option<GroundProgram>, AllocError>
    ensures { IfOk result (λ o. IfSome o (λ g. length g.atoms ≡ 2)) }
{
    let rules = [
        rule(Head::Choice(AtomId(1)), 1),
        rule(Head::Choice(AtomId(2)), 1),
        rule(Head::Nothing, 2),
    ];
    let bodies = vec![in alloc; body(alloc, &[], &[])?, body(alloc, &[-1, -2], &[])?]?;
    program(alloc, 2, &rules, bodies, Vec::new(alloc), &[])
}

// `a :- b. b :- a. b :- c. {c}. :- c.`
fn chain(alloc: Global) -> Result<Option<GroundProgram>, AllocError> {
    let rules = [
        rule(Head::One(AtomId(1)), 3),
        rule(Head::One(AtomId(2)), 2),
        rule(Head::One(AtomId(2)), 4),
        rule(Head::Choice(AtomId(3)), 1),
        rule(Head::Nothing, 4),
    ];
    let bodies = vec![in alloc;
        body(alloc, &[], &[])?,
        body(alloc, &[1], &[])?,
        body(alloc, &[2], &[])?,
        body(alloc, &[3], &[])?,
    ]?;
    program(alloc, 3, &rules, bodies, Vec::new(alloc), &[])
}

// `{b}. a :- #sum{2 : b} rel 2.`
fn guarded(alloc: Global, rel: GuardRel) -> Result<Option<GroundProgram>, AllocError> {
    let guard = GuardUse {
        group: 1,
        guard: 0,
        yes: true,
    };
    let bodies = vec![in alloc; body(alloc, &[], &[])?, body(alloc, &[], &[guard])?]?;
    let groups = vec![in alloc;
        Group {
            rows: Items::from_vec(vec![in alloc; row(alloc, 2, &[2])?]?),
            left: Some(GroupGuard::Compare(rel, 2)),
            right: None,
        },
    ]?;
    program(
        alloc,
        2,
        &[
            rule(Head::Choice(AtomId(2)), 1),
            rule(Head::One(AtomId(1)), 2),
        ],
        bodies,
        groups,
        &[],
    )
}

// `{b; c}. a :- not 1 <= #sum{2 : b, c; 3 : c} = 3.`
fn sums(alloc: Global) -> Result<Option<GroundProgram>, AllocError> {
    let both = GuardUse {
        group: 1,
        guard: 2,
        yes: false,
    };
    let bodies = vec![in alloc; body(alloc, &[], &[])?, body(alloc, &[], &[both])?]?;
    let rows = vec![in alloc; row(alloc, 2, &[3, 2, 3])?, row(alloc, 3, &[3])?]?;
    let groups = vec![in alloc;
        Group {
            rows: Items::from_vec(rows),
            left: Some(GroupGuard::Compare(GuardRel::Ge, 1)),
            right: Some(GroupGuard::Compare(GuardRel::Eq, 3)),
        },
    ]?;
    program(
        alloc,
        3,
        &[
            rule(Head::Choice(AtomId(2)), 1),
            rule(Head::Choice(AtomId(3)), 1),
            rule(Head::One(AtomId(1)), 2),
        ],
        bodies,
        groups,
        &[],
    )
}

// `p :- q.` with the input q.
fn later(alloc: Global) -> Result<Option<GroundProgram>, AllocError>
    ensures { IfOk result (λ o. IfSome o (λ g. length g.inputs ≡ 1)) }
{
    let bodies = vec![in alloc; body(alloc, &[2], &[])?]?;
    program(
        alloc,
        2,
        &[rule(Head::One(AtomId(1)), 1)],
        bodies,
        Vec::new(alloc),
        &[AtomId(2)],
    )
}

static PAIR: [[i64; 3]; 8] = [
    [-1, 4, 0],
    [-2, 4, 0],
    [3, 0, 0],
    [4, 0, 0],
    [-1, -5, 0],
    [-2, -5, 0],
    [1, 2, 5],
    [-5, 0, 0],
];

static CHAIN: [[i64; 3]; 15] = [
    [1, -7, 0],
    [-1, 7, 0],
    [2, -6, 0],
    [2, -8, 0],
    [-2, 6, 8],
    [-3, 5, 0],
    [4, 0, 0],
    [5, 0, 0],
    [1, -6, 0],
    [-1, 6, 0],
    [2, -7, 0],
    [-2, 7, 0],
    [3, -8, 0],
    [-3, 8, 0],
    [-8, 0, 0],
];

static SUMS: [[i64; 3]; 21] = [
    [1, -14, 0],
    [-1, 14, 0],
    [-2, 13, 0],
    [-3, 13, 0],
    [4, 0, 0],
    [2, -5, 0],
    [3, -5, 0],
    [-2, -3, 5],
    [-5, 6, 0],
    [5, -6, 0],
    [-3, 7, 0],
    [3, -7, 0],
    [9, -11, 0],
    [-10, -11, 0],
    [-9, 10, 11],
    [8, -12, 0],
    [11, -12, 0],
    [-8, -11, 12],
    [13, 0, 0],
    [-12, -14, 0],
    [12, 14, 0],
];

// The clause that excludes {a} from `pair`, and what `later` brings in behind it, where the negation of a is joined to q.
static LATER: [[i64; 3]; 7] = [
    [-1, 2, -6],
    [7, -9, 0],
    [-7, 9, 0],
    [1, 8, 0],
    [-1, -8, 0],
    [8, -9, 0],
    [-8, 9, 0],
];

// For each relation of a sum to 2: how many variables there are, the literal of the guard, and the bound of variable 5.
static GUARDS: [(GuardRel, u64, i64, i64); 6] = [
    (GuardRel::Ge, 8, 5, 2),
    (GuardRel::Gt, 8, 5, 3),
    (GuardRel::Lt, 8, -5, 2),
    (GuardRel::Le, 8, -5, 3),
    (GuardRel::Eq, 10, 7, 2),
    (GuardRel::Ne, 10, -7, 2),
];

// Whether the base theory of a program has so many variables, and these clauses.
fn completes(
    alloc: Global,
    g: Option<GroundProgram>,
    variables: u64,
    rows: &[[i64; 3]],
) -> Result<bool, AllocError> {
    let Some(g) = g else {
        return Ok(false);
    };
    let theory = complete(alloc, &g)?;
    Ok(theory.var_count() == variables && ends_with(&theory, 1, rows))
}

// Whether the last body is this literal, and variable 5 reaches this bound.
fn has_guard(theory: &Theory, variables: u64, guard: i64, bound: i64) -> bool {
    let Some(body) = theory.body(Var(variables.saturating_sub(1))) else {
        return false;
    };
    let Some(row) = theory.row(Var(5)) else {
        return false;
    };
    theory.var_count() == variables
        && row.bound == bound
        && body.lits.as_slice() == [literal(guard)].as_slice()
}

#[test]
fn the_clauses_come_variable_by_variable(rt: HostRuntime) -> Result<(), Fail> {
    let alloc = rt.alloc();
    assert!(rt; completes(alloc, pair(alloc)?, 6, &PAIR)?);
    assert!(rt; completes(alloc, chain(alloc)?, 9, &CHAIN)?);
    assert!(rt; completes(alloc, sums(alloc)?, 15, &SUMS)?);
    Ok(())
}

#[test]
fn a_guard_is_read_as_sums_that_reach_bounds(rt: HostRuntime) -> Result<(), Fail> {
    let alloc = rt.alloc();
    let mut read = 0u64;
    for (rel, variables, guard, bound) in GUARDS {
        if let Some(g) = guarded(alloc, rel)? {
            let theory = complete(alloc, &g)?;
            if has_guard(&theory, variables, guard, bound) {
                read = read.saturating_add(1);
            }
        }
    }
    assert_eq!(rt; read, 6);
    Ok(())
}

#[test]
fn a_set_is_excluded_and_a_program_joined(rt: HostRuntime) -> Result<(), Fail> {
    let alloc = rt.alloc();
    if let (Some(g), Some(more)) = (pair(alloc)?, later(alloc)?) {
        let mut theory = complete(alloc, &g)?;
        assert!(rt; g.atoms().len() >= 1);
        let ids = vec![in alloc; AtomId(1)]?;
        assert!(rt; is_ascending(&ids));
        let excluded = exclude(alloc, &mut theory, &AtomSet::new(ids))?;
        assert_eq!(rt; excluded, ClauseId(9));
        let join = Lit {
            var: Var(1),
            yes: false,
        };
        assert!(rt; theory.var_count() >= 1);
        let base = append(alloc, &mut theory, &more, &[join])?;
        assert_eq!(rt; base.first, Var(7));
        assert_eq!(rt; base.clauses_from, ClauseId(10));
        assert!(rt; ends_with(&theory, 9, &LATER));
        return Ok(());
    }
    assert!(rt; false);
    Ok(())
}
