// Graphs whose components and their order are known.
use crate::{components, is_graph};
use sqlite_items::Items;
use std::test::Fail;

/// The successors of each node, and the numbers.
type Row = (&'static [&'static [usize]], &'static [u64]);

const ROWS: [Row; 7] = [
    (&[], &[]),
    (&[&[]], &[1]),
    (&[&[0, 0]], &[1]),
    // a chain
    (&[&[1], &[2], &[3], &[]], &[4, 3, 2, 1]),
    // a cycle, with a chord
    (&[&[1], &[2, 0], &[3], &[0]], &[1, 1, 1, 1]),
    // a loop at a node that leads to a cycle, which leads to another
    (&[&[1], &[0, 2], &[3], &[2], &[4, 0]], &[2, 2, 1, 1, 3]),
    // the example of Cormen, Leiserson, Rivest and Stein, "Introduction to Algorithms": {a, b, e}, {c, d}, {f, g}, {h}
    (
        &[
            &[1],
            &[2, 4, 5],
            &[3, 6],
            &[2, 7],
            &[0, 5],
            &[6],
            &[5, 7],
            &[7],
        ],
        &[4, 4, 3, 3, 4, 2, 2, 1],
    ),
];

#[test]
fn known_graphs(rt: HostRuntime) -> Result<(), Fail> {
    let alloc = rt.alloc();
    for (rows, numbers) in ROWS {
        let mut successors = Vec::new(alloc);
        for row in rows {
            successors.push(Items::from_slice(alloc, row)?)?;
        }
        let successors = successors.as_slice();
        assert!(rt; is_graph(successors));
        let found = components(alloc, successors)?;
        assert_eq!(rt; found.as_slice(), numbers);
    }
    let outside = [Items::from_slice(alloc, &[1])?];
    assert!(rt; !is_graph(outside.as_slice()));
    Ok(())
}
