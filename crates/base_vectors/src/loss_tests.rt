//! Groups of places. What a session can lose is tested by whole commands.
use losses::{Groups, Member};
use std::test::Fail;

#[test]
fn repeats_count_once(rt: HostRuntime) -> Result<(), Fail> {
    let mut needs = Vec::new(rt.alloc());
    needs.push(2u8)?;
    let mut groups = Groups::new(rt.alloc(), needs, 2)?;
    for (place, esi) in [(0, 255u8), (2, 1), (3, 255), (7, 0)] {
        groups.push(0, Member { place, esi })?;
    }
    assert!(rt; groups.different(0) == 3);
    Ok(())
}

#[test]
fn no_symbols(rt: HostRuntime) -> Result<(), Fail> {
    let mut needs = Vec::new(rt.alloc());
    needs.push(1u8)?;
    let groups = Groups::new(rt.alloc(), needs, 1)?;
    assert!(rt; groups.different(0) == 0);
    Ok(())
}
