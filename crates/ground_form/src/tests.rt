// A small program, its readers and a set of its atoms.
use crate::{
    AtomId, AtomSet, Body, BodyId, GroundProgram, GroundRule, Head, is_ascending, is_in_range,
    numbered,
};
use ap_term::TermId;
use sqlite_items::Items;
use std::alloc::{AllocError, Global};
use std::test::Fail;

fn body(alloc: Global, literal: i64) -> Result<Body, AllocError> {
    Ok(Body {
        lits: Items::from_vec(vec![in alloc; literal]?),
        guards: Items::new(alloc),
        always: false,
        never: false,
    })
}

/// `a :- not b. {b} :- not a.`, where b may be handed in.
#[test]
fn two_atoms(rt: HostRuntime) -> Result<(), Fail> {
    let alloc = rt.alloc();
    let atoms = vec![in alloc; TermId(7), TermId(4)]?;
    let first = GroundRule {
        head: Head::One(AtomId(1)),
        body: BodyId(1),
    };
    let second = GroundRule {
        head: Head::Choice(AtomId(2)),
        body: BodyId(2),
    };
    let rules = vec![in alloc; first, second]?;
    let bodies = vec![in alloc; body(alloc, -2)?, body(alloc, -1)?]?;
    let groups = Vec::new(alloc);
    let inputs = vec![in alloc; AtomId(2)]?;
    assert!(rt; !is_in_range(&atoms[..1], &rules, &bodies, &groups, &inputs));
    assert!(rt; is_in_range(&atoms, &rules, &bodies, &groups, &inputs));
    let g = GroundProgram::new(atoms, rules, bodies, groups, inputs);
    assert_eq!(rt; g.atoms().len(), 2);
    assert_eq!(rt; g.rules().len(), 2);
    assert!(rt; numbered(g.bodies(), 2).is_some());
    assert!(rt; numbered(g.bodies(), 0).is_none());
    assert!(rt; g.groups().is_empty());
    assert_eq!(rt; g.inputs().len(), 1);
    assert_eq!(rt; g.atom(TermId(4)), Some(AtomId(2)));
    assert_eq!(rt; g.atom(TermId(5)), None);
    Ok(())
}

#[test]
fn a_set(rt: HostRuntime) -> Result<(), Fail> {
    let alloc = rt.alloc();
    assert!(rt; !is_ascending([AtomId(2), AtomId(2)].as_slice()));
    let ids = vec![in alloc; AtomId(2), AtomId(5)]?;
    assert!(rt; is_ascending(&ids));
    let x = AtomSet::new(ids);
    let copy = x.copy(alloc)?;
    assert_eq!(rt; copy.ids().len(), 2);
    assert!(rt; copy.contains(AtomId(5)));
    assert!(rt; !copy.contains(AtomId(3)));
    Ok(())
}
