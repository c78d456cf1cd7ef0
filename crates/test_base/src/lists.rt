use pt_instr::Kind;
use pt_kinds::Forest;
use std::test::Fail;

#[test]
fn a_cut_leaves_the_lowest_slots(rt: HostRuntime) -> Result<(), Fail> {
    let mut forest = Forest::new(rt.alloc())?;
    let values = forest.push(0, 3, Kind::Value)?;
    let slots = forest.push(values, 4_294_967_295, Kind::Iter)?;
    assert_eq!(rt; forest.len(slots), 4_294_967_298);
    let cut = forest.cut(slots, 3)?;
    assert_eq!(rt; cut, values);
    Ok(())
}
