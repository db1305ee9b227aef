// Searches by one and by eight chains, event by event.
use crate::{Core, Event, Output, Passed, events_print_the_optima};
use ground_form::{AtomId, AtomSet, SetId};
use std::alloc::{AllocError, Global};
use std::marker::Brand;
use std::test::Fail;

#[derive(Clone, Copy)]
enum Kind {
    Start,
    Better,
    Stuck,
    Dry,
}

use Kind::{Better, Dry, Start, Stuck};
use Output::{Closed, End, Nothing, Print};

/// What happens to a chain, with the set of this one atom, and what comes of it; None where it may not happen.
#[derive(Clone, Copy)]
struct Step(Kind, u8, u64, Option<Output>);

fn set_of(alloc: Global, atom: u64) -> Result<AtomSet, AllocError> {
    Ok(AtomSet::new(vec![in alloc; AtomId(atom)]?))
}

fn event_of(alloc: Global, step: Step) -> Result<Event, AllocError> {
    let chain = step.1;
    Ok(match step.0 {
        Kind::Start => Event::Start {
            chain,
            set: set_of(alloc, step.2)?,
        },
        Kind::Better => Event::Better {
            chain,
            set: set_of(alloc, step.2)?,
        },
        Kind::Stuck => Event::Stuck { chain },
        Kind::Dry => Event::Dry,
    })
}

fn take(core: &mut Core, event: &Event) -> Result<Option<Output>, AllocError> {
    if !core.may(event) {
        return Ok(None);
    }
    Ok(Some(core.apply(event)?))
}

/// How many steps come out as told before the first that does not.
fn run(alloc: Global, core: &mut Core, steps: &[Step]) -> Result<usize, AllocError> {
    for (place, step) in steps.iter().enumerate() {
        let event = event_of(alloc, *step)?;
        if take(core, &event)? != step.3 {
            return Ok(place);
        }
    }
    Ok(steps.len())
}

const ONE: [Step; 21] = [
    Step(Stuck, 0, 0, None),
    Step(Better, 0, 1, None),
    Step(Start, 1, 1, None),
    Step(Start, 0, 11, Some(Nothing)),
    Step(Start, 0, 12, None),
    Step(Dry, 0, 0, None),
    Step(Better, 0, 12, Some(Nothing)),
    Step(Stuck, 0, 0, Some(Print(SetId(2)))),
    Step(Stuck, 0, 0, None),
    Step(Start, 0, 12, None),
    Step(Start, 0, 13, Some(Nothing)),
    // A set that was passed, one that was printed, and the chain's own.
    Step(Better, 0, 11, Some(Closed)),
    Step(Start, 0, 14, Some(Nothing)),
    Step(Better, 0, 12, Some(Closed)),
    Step(Start, 0, 15, Some(Nothing)),
    Step(Better, 0, 15, Some(Closed)),
    Step(Dry, 0, 0, Some(End)),
    Step(Dry, 0, 0, None),
    Step(Start, 0, 16, None),
    Step(Better, 0, 16, None),
    Step(Stuck, 0, 0, None),
];

const EIGHT: [Step; 14] = [
    Step(Start, 8, 21, None),
    Step(Start, 7, 21, Some(Nothing)),
    Step(Start, 0, 22, Some(Nothing)),
    Step(Start, 3, 22, None),
    // Two chains reach one set.
    Step(Better, 7, 23, Some(Nothing)),
    Step(Better, 0, 23, Some(Closed)),
    Step(Stuck, 0, 0, None),
    Step(Stuck, 7, 0, Some(Print(SetId(3)))),
    Step(Start, 0, 24, Some(Nothing)),
    Step(Start, 1, 25, Some(Nothing)),
    Step(Better, 1, 24, Some(Closed)),
    Step(Dry, 0, 0, None),
    Step(Stuck, 0, 0, Some(Print(SetId(4)))),
    Step(Dry, 0, 0, Some(End)),
];

const PASSED: [Passed; 3] = [
    Passed {
        set: SetId(1),
        by: SetId(3),
    },
    Passed {
        set: SetId(2),
        by: SetId(3),
    },
    Passed {
        set: SetId(5),
        by: SetId(4),
    },
];

#[test]
fn one_chain(rt: HostRuntime) -> Result<(), Fail> {
    let alloc = rt.alloc();
    let mut core = Core::new(alloc, 1);
    assert_eq!(rt; run(alloc, &mut core, &ONE)?, ONE.len());
    assert_eq!(rt; core.printed().len(), 1);
    Ok(())
}

#[test]
fn eight_chains(rt: HostRuntime) -> Result<(), Fail> {
    let alloc = rt.alloc();
    let mut core = Core::new(alloc, 8);
    assert_eq!(rt; run(alloc, &mut core, &EIGHT[..5])?, 5);
    assert_eq!(rt; core.chain_set(7), Some(SetId(3)));
    assert_eq!(rt; run(alloc, &mut core, &EIGHT[5..])?, EIGHT.len() - 5);
    assert!(rt; core.printed() == [SetId(3), SetId(4)].as_slice());
    assert!(rt; core.passed() == PASSED.as_slice());
    assert!(rt; core.chain_set(7).is_none());
    assert!(rt; core.chain_set(8).is_none());
    Ok(())
}

#[test]
fn numbers(rt: HostRuntime) -> Result<(), Fail> {
    let alloc = rt.alloc();
    let mut core = Core::new(alloc, 2);
    assert_eq!(rt; run(alloc, &mut core, &ONE[3..9])?, 6);
    assert_eq!(rt; core.id(&set_of(alloc, 12)?), Some(SetId(2)));
    assert!(rt; core.id(&set_of(alloc, 13)?).is_none());
    assert!(rt; core.set(SetId(0)).is_none());
    assert!(rt;
        core.set(SetId(2))
            .is_some_and(|set| set.contains(AtomId(12)))
    );
    assert!(rt; core.set(SetId(3)).is_none());
    events_print_the_optima::<Brand>();
    Ok(())
}
