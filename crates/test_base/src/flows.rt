use pt_instr::{Kind, Run};
use pt_kind_flow::{Edge, Flow};
use std::test::Fail;

/// Some values with so many slots of a kind on top.
fn runs(values: u32, count: u32, kind: Kind) -> [Run; 3] {
    [
        Run {
            kind: Kind::Value,
            count: values,
        },
        Run { kind, count },
        Run { kind, count: 0 },
    ]
}

#[test]
fn lists_that_differ_have_a_beginning(rt: HostRuntime) -> Result<(), Fail> {
    let mut flow = Flow::new(rt.alloc(), 4, &runs(0, 1, Kind::Iter))?;
    let mut edges = Vec::new(rt.alloc());
    edges.push(Edge {
        to: 1,
        keeps: 1,
        given: runs(2, 1, Kind::Cell),
        raises: false,
    })?;
    edges.push(Edge {
        to: 1,
        keeps: 1,
        given: runs(1, 2, Kind::Cell),
        raises: false,
    })?;
    flow.open(0, edges)?;
    let mut edges = Vec::new(rt.alloc());
    edges.push(Edge {
        to: 2,
        keeps: 0,
        given: runs(1, 0, Kind::Cell),
        raises: true,
    })?;
    flow.open(1, edges)?;
    let shared = flow.forest.push(0, 1, Kind::Iter)?;
    let shared = flow.forest.push(shared, 1, Kind::Value)?;
    assert_eq!(rt; flow.longest(1), Some(shared));
    let raised = flow.forest.push(0, 1, Kind::Value)?;
    let raised = flow.forest.push(raised, 1, Kind::Iter)?;
    assert_eq!(rt; flow.longest(2), Some(raised));
    assert_eq!(rt; flow.longest(3), None);
    assert_eq!(rt; flow.forest.slot(shared, 1), Some(Kind::Value));
    assert_eq!(rt; flow.forest.common(shared, raised), 0);
    Ok(())
}
