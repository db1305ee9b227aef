// Rules whose least set is known.
use crate::{Rule, are_rules_of, least};
use sqlite_items::Items;
use std::test::Fail;

/// `0. 1 :- 0. 2, 3 :- 1, 0, 1. 4 :- 5. 5 :- 4, 0. 1 :- 3.`
#[test]
fn chains_and_a_loop(rt: HostRuntime) -> Result<(), Fail> {
    let alloc = rt.alloc();
    let table: [(&[usize], &[usize]); 6] = [
        (&[], &[0]),
        (&[0], &[1]),
        (&[1, 0, 1], &[2, 3]),
        (&[5], &[4]),
        (&[4, 0], &[5]),
        (&[3], &[1]),
    ];
    let mut rules = Vec::new(alloc);
    for (body, heads) in table {
        rules.push(Rule {
            body: Items::from_slice(alloc, body)?,
            heads: Items::from_slice(alloc, heads)?,
        })?;
    }
    let rules = rules.as_slice();
    assert!(rt; !are_rules_of(5, rules));
    assert!(rt; are_rules_of(6, rules));
    let found = least(alloc, rules, 6)?;
    let marks = [true, true, true, true, false, false];
    assert_eq!(rt; found.marks.as_slice(), marks.as_slice());
    assert_eq!(rt; found.order.as_slice(), [0, 1, 2, 3].as_slice());
    Ok(())
}
