// What no contract says: in which order variables are picked, and when a search starts again.
use crate::{Branching, Restarts};
use std::test::Fail;
use theory_form::{Assignment, Lit, Var};

fn lit(number: u64, yes: bool) -> Lit {
    Lit {
        var: Var(number),
        yes,
    }
}

// After 1300 conflicts a search has started again after these.
const STARTS: &[u64] = &[100, 200, 400, 500, 600, 800, 1200];

#[test]
fn starts(rt: HostRuntime) -> Result<(), Fail> {
    let mut restarts = Restarts::new();
    let mut starts = Vec::new(rt.alloc());
    for conflict in 1..1300u64 {
        if restarts.is_due() {
            starts.push(conflict)?;
        }
    }
    assert_eq!(rt; starts.as_slice(), STARTS);
    Ok(())
}

// The most active variable comes first, with the value that it had.
#[test]
fn picks(rt: HostRuntime) -> Result<(), Fail> {
    let mut a = Assignment::new(rt.alloc());
    a.reserve(3)?;
    let mut branching = Branching::new(rt.alloc());
    branching.reserve(3)?;
    branching.bump(Var(2));
    branching.decay();
    branching.bump(Var(3));
    assert_eq!(rt; branching.pick(&a), Some(lit(3, false)));
    branching.give_back(lit(3, true));
    assert_eq!(rt; branching.pick(&a), Some(lit(3, true)));
    assert_eq!(rt; branching.pick(&a), Some(lit(2, false)));
    assert_eq!(rt; branching.pick(&a), Some(lit(1, false)));
    assert_eq!(rt; branching.pick(&a), None);
    Ok(())
}
