//! Height fields, and what `check` says of their meshes.
use crate::run;
use mesh_io::{MemFolder, MemSink};
use std::test::Fail;

/// The squares along an axis, and how the text of the soup begins.
const FIELDS: [(&str, &[u8]); 2] = [
    (
        "1",
        b"OFF\n4 2 0\n0 0 1\n4 0 2\n0 4 4\n4 4 5\n3 0 1 3\n3 0 3 2\n",
    ),
    ("16", b"OFF\n289 512 0\n0 0 1\n4 0 2\n"),
];

#[test]
fn height_fields(rt: HostRuntime) -> Result<(), Fail> {
    let alloc = rt.alloc();
    for (squares, front) in FIELDS {
        let mut folder = MemFolder::new(alloc, Vec::new(alloc), Vec::new(alloc), 4096);
        let mut out = MemSink::new(alloc, Vec::new(alloc));
        let words = ["demo", squares, "1", "a.off", "b.msh", "r"];
        assert_eq!(rt; run(alloc, &words, &mut folder, &mut out), 0);
        assert!(rt; folder.bytes("a.off").ok_or("a soup")?.starts_with(front));
        let mut said = MemSink::new(alloc, Vec::new(alloc));
        let words = ["check", "a.off", "b.msh", "r"];
        assert_eq!(rt; run(alloc, &words, &mut folder, &mut said), 0);
        assert_eq!(rt; said.bytes(), b"good\n".as_slice());
    }
    Ok(())
}
