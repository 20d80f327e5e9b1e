use std::test::Fail;
use undo_trail::Trail;

#[test]
fn notes_and_goes_back(rt: HostRuntime) -> Result<(), Fail> {
    let mut trail = Trail::new(rt.alloc())?;
    trail.reserve(3)?;
    trail.note(7);
    trail.note(8);
    let mark = trail.mark();
    trail.note(9);
    assert!(rt; mark == 2);
    assert!(rt; trail.entry(2) == 9);
    assert!(rt; trail.back_to(mark) == Some(9));
    assert!(rt; trail.back_to(mark).is_none());
    trail.note(5);
    assert!(rt; trail.entry(2) == 5);
    assert!(rt; trail.entry(0) == 7);
    Ok(())
}
