use mesh_base::Mac;
use mesh_loops::{LoopList, LoopReport, Watch, WatchErr};
use std::test::Fail;

const A: Mac = Mac([2, 0, 0, 0, 0, 10]);

const B: Mac = Mac([2, 0, 0, 0, 0, 11]);

const C: Mac = Mac([2, 0, 0, 0, 0, 12]);

const D: Mac = Mac([2, 0, 0, 0, 0, 13]);

/// A node, an originator, and the next node between them.
type Route = (Mac, Mac, Option<Mac>);

// Sets routes, and looks at loops.
fn moment(watch: &mut Watch, routes: &[Route]) -> Result<LoopReport, WatchErr> {
    for (node, orig, next) in routes {
        watch.set(*node, *orig, *next)?;
    }
    let report = watch.settle()?;
    Ok(report)
}

// Whether the loop at a place is of an originator and has these nodes.
fn is_at(loops: &LoopList, place: usize, orig: Mac, nodes: &[Mac]) -> bool {
    match loops.at(place) {
        Some(route_loop) => route_loop.orig == orig && route_loop.nodes.as_slice() == nodes,
        None => false,
    }
}

// Whether these loops are one of D with these nodes; of no nodes there is no loop.
fn are_one(loops: &LoopList, nodes: &[Mac]) -> bool {
    if nodes.is_empty() {
        return loops.len() == 0;
    }
    loops.len() == 1 && is_at(loops, 0, D, nodes)
}

// Sets routes, looks at loops, and answers whether a loop of D with the first nodes is gone and one
// with the others is new; of no nodes there is no loop.
fn tells(
    watch: &mut Watch,
    routes: &[Route],
    gone: &[Mac],
    fresh: &[Mac],
) -> Result<bool, WatchErr> {
    let report = moment(watch, routes)?;
    Ok(are_one(&report.gone, gone) && are_one(&report.fresh, fresh))
}

#[test]
fn two_nodes_loop_and_part(rt: HostRuntime) -> Result<(), Fail> {
    let mut watch = Watch::new(rt.alloc());
    let pair = [(A, D, Some(B)), (B, D, Some(A))];
    assert!(rt; tells(&mut watch, &pair, &[], &[A, B])?);
    assert!(rt; tells(&mut watch, &[(B, D, Some(D))], &[A, B], &[])?);
    Ok(())
}

#[test]
fn a_node_that_names_itself_is_a_loop(rt: HostRuntime) -> Result<(), Fail> {
    let mut watch = Watch::new(rt.alloc());
    assert!(rt; tells(&mut watch, &[(A, D, Some(A))], &[], &[A])?);
    assert!(rt; tells(&mut watch, &[(A, D, None)], &[A], &[])?);
    Ok(())
}

#[test]
fn what_comes_and_goes_between_two_looks_is_not_told(rt: HostRuntime) -> Result<(), Fail> {
    let mut watch = Watch::new(rt.alloc());
    let routes = [(A, D, Some(B)), (B, D, Some(A)), (B, D, Some(D))];
    assert!(rt; tells(&mut watch, &routes, &[], &[])?);
    assert!(rt; tells(&mut watch, &[(B, D, Some(A))], &[], &[A, B])?);
    assert!(rt; tells(&mut watch, &[(B, D, None), (B, D, Some(A))], &[], &[])?);
    Ok(())
}

#[test]
fn a_loop_that_changes_its_nodes_is_gone_and_new(rt: HostRuntime) -> Result<(), Fail> {
    let mut watch = Watch::new(rt.alloc());
    let pair = [(A, D, Some(B)), (B, D, Some(A))];
    assert!(rt; tells(&mut watch, &pair, &[], &[A, B])?);
    let other = [(B, D, Some(C)), (C, D, Some(A))];
    assert!(rt; tells(&mut watch, &other, &[A, B], &[A, B, C])?);
    Ok(())
}

// Whether there are three loops: of D itself, of A, and of B and C.
fn are_three(loops: &LoopList) -> bool {
    loops.len() == 3
        && is_at(loops, 0, C, &[D])
        && is_at(loops, 1, D, &[A])
        && is_at(loops, 2, D, &[B, C])
}

#[test]
fn loops_stand_by_originator_and_least_node(rt: HostRuntime) -> Result<(), Fail> {
    let mut watch = Watch::new(rt.alloc());
    moment(&mut watch, &[(C, D, Some(B)), (B, D, Some(C))])?;
    moment(&mut watch, &[(B, D, None)])?;
    let routes = [(B, D, Some(C)), (A, D, Some(A)), (D, C, Some(D))];
    let report = moment(&mut watch, &routes)?;
    assert!(rt; are_three(&report.fresh));
    Ok(())
}

// The address of a node by its number.
fn node(number: u32) -> Mac {
    let [a, b, c, d] = number.to_be_bytes();
    Mac([2, 1, a, b, c, d])
}

// Sets 65,535 pairs, and one more with a loop.
fn fill(watch: &mut Watch) -> Result<(), WatchErr> {
    for number in 0..65_535u32 {
        watch.set(node(number), D, None)?;
    }
    watch.set(A, D, Some(A))?;
    Ok(())
}

#[test]
fn one_pair_too_many_is_refused_and_leaves_all_as_before(rt: HostRuntime) -> Result<(), Fail> {
    let mut watch = Watch::new(rt.alloc());
    fill(&mut watch)?;
    assert_eq!(rt; watch.set(B, D, Some(B)), Err(WatchErr::Pairs));
    assert!(rt; tells(&mut watch, &[], &[], &[A])?);
    let routes = [(node(0), D, Some(A)), (A, D, Some(node(0)))];
    assert!(rt; tells(&mut watch, &routes, &[A], &[A, node(0)])?);
    Ok(())
}
