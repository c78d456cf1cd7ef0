use crate::{Cycles, Exits, cycles_of_steps};
use pt_base::{Memory, Pc};
use pt_ranges::Handler;
use std::alloc::Global;

fn exits(onward: Option<usize>, held: Option<usize>) -> Option<Exits> {
    Some(Exits {
        onward,
        aside: None,
        again: false,
        held,
    })
}

/// Five places in a row, of which the fourth leads on to the last or to what it holds.
fn least(
    alloc: Global,
    fourth: Option<Exits>,
    bundle: &[usize],
    rows: &[Handler],
) -> Result<Option<usize>, Memory> {
    let mut table = Vec::new(alloc);
    table.push(exits(Some(1), None))?;
    table.push(exits(Some(2), None))?;
    table.push(exits(Some(3), None))?;
    table.push(fourth)?;
    table.push(None)?;
    let mut bundles = Vec::new(alloc);
    bundles.push(Vec::from_slice(alloc, bundle)?)?;
    match cycles_of_steps(alloc, table, bundles, rows)? {
        Cycles::Least(pc) => Ok(Some(pc)),
        Cycles::Ranks(_) => Ok(None),
    }
}

#[test]
fn steps_go_round_by_rows_and_by_what_is_held(rt: HostRuntime) -> Result<(), Memory> {
    let row = Handler {
        from: Pc(2),
        to: Pc(5),
        target: Pc(1),
        depth: 0,
        always: false,
    };
    let alloc = rt.alloc();
    assert_eq!(rt; least(alloc, exits(Some(4), None), &[], &[])?, None);
    assert_eq!(rt; least(alloc, exits(Some(4), None), &[], &[row])?, Some(1));
    assert_eq!(rt; least(alloc, exits(None, Some(0)), &[4, 2], &[])?, Some(2));
    Ok(())
}
