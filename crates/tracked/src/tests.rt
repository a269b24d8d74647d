// Keys put in and out.
use crate::{Added, Tracked};
use grid::Face;
use std::test::Fail;

#[test]
fn puts_a_face_in_and_out(rt: HostRuntime) -> Result<(), Fail> {
    let mut tracked = Tracked::new(rt.alloc());
    let face = Face([0, 1, 3]);
    assert_eq!(rt; tracked.add(face)?, Added::New);
    assert_eq!(rt; tracked.add(face)?, Added::Already);
    assert!(rt; tracked.has(face));
    tracked.take_out(face);
    assert!(rt; !tracked.has(face));
    assert_eq!(rt; tracked.add(face)?, Added::Restored);
    tracked.take_out(face);
    tracked.put_back(face);
    assert!(rt; tracked.has(face));
    tracked.drop_last();
    assert!(rt; !tracked.has(face));
    assert_eq!(rt; tracked.count2(0, 1), 0);
    Ok(())
}

#[test]
fn counts_and_lists(rt: HostRuntime) -> Result<(), Fail> {
    let mut tracked = Tracked::new(rt.alloc());
    let _ = tracked.add(Face([1, 2, 3]))?;
    let _ = tracked.add(Face([0, 1, 3]))?;
    assert_eq!(rt; tracked.count2(1, 3), 2);
    assert_eq!(rt; tracked.count2(3, 0), 1);
    assert_eq!(rt; tracked.count2(0, 2), 0);
    assert!(rt; tracked.is_rim(3));
    assert!(rt; !tracked.is_rim(4));
    let faces = tracked.list(rt.alloc())?;
    assert_eq!(rt;
        faces.as_slice(),
        [Face([0, 1, 3]), Face([1, 2, 3])].as_slice()
    );
    Ok(())
}

#[test]
fn finds_the_faces_at_a_point(rt: HostRuntime) -> Result<(), Fail> {
    let mut tracked = Tracked::new(rt.alloc());
    let _ = tracked.add(Face([1, 2, 3]))?;
    let _ = tracked.add(Face([0, 1, 3]))?;
    let _ = tracked.add(Face([0, 2, 3]))?;
    tracked.take_out(Face([0, 1, 3]));
    assert_eq!(rt; tracked.keys(), 3);
    assert_eq!(rt; tracked.key(1), Face([0, 1, 3]));
    assert!(rt; !tracked.is_in(1));
    let mut faces = Vec::new(rt.alloc());
    tracked.at_point(3, &mut faces)?;
    assert_eq!(rt;
        faces.as_slice(),
        [Face([1, 2, 3]), Face([0, 2, 3])].as_slice()
    );
    tracked.at_point(4, &mut faces)?;
    assert!(rt; faces.is_empty());
    Ok(())
}
