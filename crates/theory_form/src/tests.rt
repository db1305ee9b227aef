// What no clause says: that the calls succeed with ample memory, and the order of literals at values from outside.
ghost use Rattle.std.specs.Prelude.{◌≡◌};

use crate::{Assignment, Clause, ClauseId, Lit, Marks, Theory, Truth, Var, VarKind, is_ascending};
use sqlite_items::Items;
use std::test::Fail;

fn positive(var: u64) -> Lit
    ensures { result.var.0 ≡ var }
{
    Lit {
        var: Var(var),
        yes: true,
    }
}

fn negative(var: u64) -> Lit
    ensures { result.var.0 ≡ var }
{
    positive(var).opposite()
}

#[test]
fn clauses_are_sorted_by_variable_and_the_positive_first(rt: HostRuntime) -> Result<(), Fail> {
    let lits = vec![in rt.alloc();
        negative(2),
        positive(7),
        negative(1),
        positive(2),
        negative(2),
    ]?;
    let clause = Clause::sorted(lits)?;
    let want = [negative(1), positive(2), negative(2), positive(7)];
    assert_eq!(rt; clause.lits(), want.as_slice());
    assert_eq!(rt; clause.copy(rt.alloc())?.lits(), want.as_slice());
    assert!(rt; is_ascending(&want));
    assert!(rt; !is_ascending(&[negative(2), positive(2)]));
    assert!(rt; !is_ascending(&[positive(2), positive(2)]));
    let empty = Clause::new(vec![in rt.alloc()]?);
    assert_eq!(rt; empty.lits().len(), 0);
    Ok(())
}

#[test]
fn each_reader_answers_its_kind_alone(rt: HostRuntime) -> Result<(), Fail> {
    let alloc = rt.alloc();
    let mut theory = Theory::new(alloc);
    let guard = theory.add_var(VarKind::Search)?;
    let block = theory.add_block()?;
    assert_eq!(rt; block, 0);
    let supports = Items::from_slice(alloc, [positive(3)].as_slice())?;
    let atom = theory.add_var(VarKind::Atom { block, supports })?;
    let lits = Items::from_slice(alloc, [negative(4)].as_slice())?;
    let body = theory.add_var(VarKind::Body { lits })?;
    let terms = Items::new(alloc);
    let sum = theory.add_var(VarKind::Sum { terms, bound: -5 })?;
    let other = theory.add_var(VarKind::Other)?;
    assert_eq!(rt; theory.var_count(), 5);
    assert_eq!(rt; theory.blocks(), 1);
    assert_eq!(rt; theory.atoms(block), [atom].as_slice());
    assert_eq!(rt; theory.atoms(1).len(), 0);
    assert_eq!(rt; theory.search_guard(), positive(1));
    for v in [Var(0), guard, atom, body, sum, other, Var(6)] {
        assert_eq!(rt; theory.block_of(v).is_some(), v == atom);
        assert_eq!(rt; theory.supports(v).is_some(), v == atom);
        assert_eq!(rt; theory.body(v).is_some(), v == body);
        assert_eq!(rt; theory.row(v).is_some(), v == sum);
    }
    Ok(())
}

#[test]
fn numbers_are_skipped_and_cut(rt: HostRuntime) -> Result<(), Fail> {
    let alloc = rt.alloc();
    let mut theory = Theory::new(alloc);
    let first = theory.add_clause(Clause::sorted(vec![in alloc; positive(1)]?)?)?;
    assert_eq!(rt; first, ClauseId(1));
    let mark = theory.mark();
    theory.reserve_id()?;
    assert_eq!(rt; theory.skip(), ClauseId(2));
    assert_eq!(rt; theory.next_id(), ClauseId(3));
    assert!(rt; theory.clause(ClauseId(0)).is_none());
    assert!(rt; theory.clause(ClauseId(1)).is_some());
    assert!(rt; theory.clause(ClauseId(2)).is_none());
    theory.add_var(VarKind::Other)?;
    theory.cut(&mark);
    assert_eq!(rt; theory.next_id(), ClauseId(2));
    assert_eq!(rt; theory.var_count(), 0);
    Ok(())
}

#[test]
fn tables_hold_values_and_marks(rt: HostRuntime) -> Result<(), Fail> {
    let mut assignment = Assignment::new(rt.alloc());
    assignment.reserve(3)?;
    assert_eq!(rt; assignment.places(), 4);
    assignment.set(negative(3));
    assert_eq!(rt; assignment.value(Var(3)), Some(false));
    assert_eq!(rt; assignment.truth(positive(3)), Truth::False);
    assert!(rt; assignment.is_true(negative(3)));
    assert!(rt; assignment.is_false(positive(3)));
    assignment.clear(Var(3));
    assert!(rt; assignment.is_free(positive(3)));
    assert_eq!(rt; assignment.value(Var(9)), None);
    let mut marks = Marks::new(rt.alloc());
    marks.reserve(3)?;
    marks.set(Var(3));
    assert!(rt; marks.is_marked(Var(3)));
    marks.clear(Var(3));
    assert!(rt; !marks.is_marked(Var(3)));
    assert!(rt; !marks.is_marked(Var(4)));
    Ok(())
}
