//! The path-based search: the nodes that were met and are in no component yet stand on a stack, which is cut into segments.
//! Each step opens a node, passes an edge, joins two segments, finishes a node or makes a component of a segment.
ghost use Rattle.std.specs.Prelude.{◌≡◌, ◌≢◌, ◌<◌, ◌≤◌, [], length, map, All, MatchOption, OnOk, IfOk};
ghost use Rattle.components.specs.Graphs.{IsGraph, AreComponentNumbers, successors_of};
ghost use Rattle.components.specs.Searches.{at, status_of, IsLast, IsSearch, IsStep, IsCut, opened, passed, joined, finished, number_in, start_of, CanFollow, IsNext, IsRun, AllMet};
ghost use Rattle.components.specs.declared.search.Status.TheVariants.{New};

use crate::marks::{cut, last, number_nodes};
use sqlite_items::Items;
use std::alloc::{AllocError, Global};

/// How far the search is with a node.
#[derive(Clone, Copy, Debug)]
pub enum Status {
    /// Not met yet.
    New,
    /// On the stack, at this place.
    Open(usize),
    /// In the component of this number.
    Closed(u64),
}

/// The state of the search.
#[derive(Debug, Drop)]
struct Search {
    /// The status of each node.
    statuses: Items<Status>,
    /// How many successors of each node have not been looked at. They are looked at from the last one on.
    left: Items<usize>,
    /// The open nodes. Those of one segment reach each other, and each segment reaches the next.
    stack: Items<usize>,
    /// The places of the stack where a segment starts.
    starts: Items<usize>,
    /// The places of the stack whose nodes may have successors left.
    unfinished: Items<usize>,
    /// How many components are complete.
    closed: u64,
}

/// Puts a new node on the stack, as a segment of its own.
fn push_node(search: &mut Search, node: usize) -> Result<(), AllocError>
    requires { node < length search.old.statuses }
    ensures { OnOk result (search.new ≡ opened search.old node) }
{
    let place = search.stack.len();
    search.stack.push(node)?;
    search.starts.push(place)?;
    search.unfinished.push(place)?;
    search.statuses.set(node, Status::Open(place));
    Ok(())
}

/// The edge to the last successor that is left has been looked at.
fn pass(search: &mut Search, node: usize)
    requires range { node < length search.old.left }
    requires left { 0 < at search.old.left node }
    ensures { search.new ≡ passed search.old node }
{
    let left = search.left.as_slice()[node];
    search.left.set(node, left - 1);
}

/// Makes one segment of the two uppermost.
fn join(search: &mut Search)
    ensures { search.new ≡ joined search.old }
{
    let _ = search.starts.pop();
}

/// The uppermost of the unfinished nodes has no successor left.
fn finish(search: &mut Search)
    ensures { search.new ≡ finished search.old }
{
    let _ = search.unfinished.pop();
}

/// Makes a component of the segment that starts at this place.
fn close(search: &mut Search, top: usize)
    requires number { search.old.closed < u64.MAX }
    requires top { top ≤ length search.old.stack }
    requires nodes { All (λ v. v < length search.old.statuses) search.old.stack }
    ensures { IsCut search.old search.new top }
{
    search.closed += 1;
    let segment = &search.stack.as_slice()[top..];
    number_nodes(&mut search.statuses, segment, search.closed);
    cut(&mut search.stack, top);
    join(search);
}

/// Looks at the edge from an unfinished node of the uppermost segment to a successor.
fn follow(
    successors: &[Items<usize>],
    search: &mut Search,
    top: usize,
    node: usize,
    successor: usize,
) -> Result<(), AllocError>
    requires graph { IsGraph successors.now }
    requires search { IsSearch successors.now search.old }
    requires top { IsLast search.old.starts top }
    requires node { CanFollow successors.now search.old top node successor }
    ensures { OnOk result (IsStep successors.now search.old search.new) }
{
    match search.statuses.as_slice()[successor] {
        Status::New => push_node(search, successor),
        Status::Open(place) if place < top => {
            join(search);
            Ok(())
        }
        _ => {
            pass(search, node);
            Ok(())
        }
    }
}

/// The last successor of a node that has not been looked at.
fn next_successor(successors: &[Items<usize>], search: &Search, node: usize) -> Option<usize>
    requires node { node < length successors.now }
    requires left { at search.now.left node ≤ length (successors_of successors.now node) }
    requires size { length search.now.left ≡ length successors.now }
    ensures { MatchOption result (at search.now.left node ≡ 0) (IsNext successors.now search.now node) }
{
    let left = search.left.as_slice()[node];
    if left == 0 {
        None
    } else {
        Some(successors[node].as_slice()[left - 1])
    }
}

/// Looks at the next successor of an unfinished node of the uppermost segment, if it has one.
fn explore(
    successors: &[Items<usize>],
    search: &mut Search,
    top: usize,
    place: usize,
) -> Result<(), AllocError>
    requires graph { IsGraph successors.now }
    requires search { IsSearch successors.now search.old }
    requires top { IsLast search.old.starts top }
    requires place { IsLast search.old.unfinished place }
    requires upper { top ≤ place }
    requires inside { place < length search.old.stack }
    ensures { OnOk result (IsStep successors.now search.old search.new) }
{
    let node = search.stack.as_slice()[place];
    match next_successor(successors, search, node) {
        Some(successor) => follow(successors, search, top, node, successor),
        None => {
            finish(search);
            Ok(())
        }
    }
}

/// Looks at the uppermost segment, which starts at this place: it is complete if all its nodes are finished.
fn step(successors: &[Items<usize>], search: &mut Search, top: usize) -> Result<(), AllocError>
    requires graph { IsGraph successors.now }
    requires search { IsSearch successors.now search.old }
    requires top { IsLast search.old.starts top }
    ensures { OnOk result (IsStep successors.now search.old search.new) }
{
    match last(search.unfinished.as_slice()) {
        Some(place) if place >= top => explore(successors, search, top, place),
        _ => {
            close(search, top);
            Ok(())
        }
    }
}

/// Goes on until the stack is empty.
fn empty_stack(successors: &[Items<usize>], search: &mut Search) -> Result<(), AllocError>
    requires graph { IsGraph successors.now }
    requires search { IsSearch successors.now search.old }
    ensures { OnOk result (IsRun successors.now search.old search.new) }
{
    while let Some(top) = last(search.starts.as_slice()) {
        step(successors, search, top)?;
    }
    Ok(())
}

/// Visits a node, if it is new, and all that can be reached from it.
fn visit(successors: &[Items<usize>], search: &mut Search, node: usize) -> Result<(), AllocError>
    requires graph { IsGraph successors.now }
    requires search { IsSearch successors.now search.old }
    requires empty { search.old.stack ≡ [] }
    requires node { node < length successors.now }
    ensures run { OnOk result (IsRun successors.now search.old search.new) }
    ensures met { OnOk result (status_of search.new.statuses node ≢ New) }
{
    if let Status::New = search.statuses.as_slice()[node] {
        push_node(search, node)?;
        empty_stack(successors, search)?;
    }
    Ok(())
}

/// Visits each node.
fn visit_all(successors: &[Items<usize>], search: &mut Search) -> Result<(), AllocError>
    requires graph { IsGraph successors.now }
    requires search { IsSearch successors.now search.old }
    requires empty { search.old.stack ≡ [] }
    ensures run { OnOk result (IsRun successors.now search.old search.new) }
    ensures met { OnOk result (AllMet (length successors.now) search.new.statuses) }
{
    for node in 0..successors.len() {
        visit(successors, search, node)?;
    }
    Ok(())
}

/// The number of successors of each node.
fn counts(alloc: Global, successors: &[Items<usize>]) -> Result<Items<usize>, AllocError>
    ensures { IfOk result (λ counts. counts ≡ map length successors.now) }
{
    let counts: Vec<usize> = successors.iter().map(|list| list.len()).collect(alloc)?;
    Ok(Items::from_vec(counts))
}

/// The search at its start: each node is new, and all its successors are left.
fn start(alloc: Global, successors: &[Items<usize>]) -> Result<Search, AllocError>
    ensures { IfOk result (λ search. search ≡ start_of successors.now) }
{
    Ok(Search {
        statuses: Items::from_vec(vec![in alloc; Status::New; successors.len()]?),
        left: counts(alloc, successors)?,
        stack: Items::new(alloc),
        starts: Items::new(alloc),
        unfinished: Items::new(alloc),
        closed: 0,
    })
}

fn number_of(status: &Status) -> u64
    ensures { result ≡ number_in status.now }
{
    match *status {
        Status::Closed(number) => number,
        _ => 0,
    }
}

/// The numbers in these statuses.
fn numbers_in(alloc: Global, statuses: &[Status]) -> Result<Items<u64>, AllocError>
    ensures { IfOk result (λ numbers. numbers ≡ map number_in statuses.now) }
{
    let numbers: Vec<u64> = statuses.iter().map(number_of).collect(alloc)?;
    Ok(Items::from_vec(numbers))
}

/// The numbers of the components.
pub fn component_numbers(
    alloc: Global,
    successors: &[Items<usize>],
) -> Result<Items<u64>, AllocError>
    requires { IsGraph successors.now }
    ensures { IfOk result (AreComponentNumbers successors.now) }
{
    let mut search = start(alloc, successors)?;
    visit_all(successors, &mut search)?;
    numbers_in(alloc, search.statuses.as_slice())
}
