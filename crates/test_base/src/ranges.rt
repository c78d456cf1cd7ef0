ghost use Rattle.std.specs.Prelude.{◌≡◌, false};

use pt_base::{ActNo, Line, Pc};
use pt_ranges::*;
use std::test::Fail;

fn mark(pc: u32, act: u32, line: u32) -> ActMark
    ensures { result ≡ record { pc = record { 0 = pc }; act = record { 0 = act }; line = record { 0 = line }; again = false } }
{
    ActMark {
        pc: Pc(pc),
        act: ActNo(act),
        line: Line(line),
        again: false,
    }
}

fn handler(from: u32, to: u32, target: u32) -> Handler {
    Handler {
        from: Pc(from),
        to: Pc(to),
        target: Pc(target),
        depth: 0,
        always: true,
    }
}

#[test]
fn a_mark_covers_up_to_the_next(rt: HostRuntime) -> Result<(), Fail> {
    let rows = [mark(2, 0, 7), mark(7, 1, 7), mark(8, 2, 9)];
    let table = LineTable::build(rt.alloc(), &rows)?;
    let found = [
        (0, None),
        (1, None),
        (2, Some(0)),
        (6, Some(0)),
        (7, Some(1)),
        (8, Some(2)),
        (99, Some(2)),
    ];
    for (pc, act) in found {
        let mark = table.act_at(Pc(pc));
        assert_eq!(rt; mark.map(|m| m.act.0), act, "at {pc}");
        assert_eq!(rt; table.line_at(Pc(pc)), mark.map(|m| m.line), "at {pc}");
    }
    Ok(())
}

#[test]
fn the_first_covering_row_is_the_inner_one(rt: HostRuntime) -> Result<(), Fail> {
    let rows = [handler(4, 6, 20), handler(2, 8, 30), handler(0, 9, 40)];
    let table = HandlerTable::build(rt.alloc(), &rows)?;
    let found = [
        (0, Some(40)),
        (2, Some(30)),
        (4, Some(20)),
        (5, Some(20)),
        (6, Some(30)),
        (8, Some(40)),
        (9, None),
    ];
    for (pc, target) in found {
        assert_eq!(rt;
            table.handler_at(Pc(pc)).map(|h| h.target.0),
            target,
            "at {pc}"
        );
    }
    for (row, target) in [(0, Some(30)), (1, Some(40)), (2, None), (u32::MAX, None)] {
        assert_eq!(rt;
            table.outer_of(row, Pc(5)).map(|h| h.target.0),
            target,
            "behind {row}"
        );
    }
    Ok(())
}
