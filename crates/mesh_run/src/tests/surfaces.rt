//! Soups of triangles: worked cases on the lattice of four cells along each axis.
use super::ran;
use std::test::Fail;

pub const CUBE: &[u8] =
    b"OFF\n8 6 0\n0 0 0\n8 0 0\n0 8 0\n8 8 0\n0 0 8\n8 0 8\n0 8 8\n8 8 8\n4 0 1 3 2\n4 4 5 7 6\n4 0 2 6 4\n4 1 3 7 5\n4 0 1 5 4\n4 2 3 7 6\n";

const DRESSED_CUBE: &[u8] =
    b"OFF 8 6 12 # a cube\r\n# vertices\r\n0 0 0\r\n8.000 0 0\r\n0 8 0\r\n8 8 0\r\n0 0 8\r\n8 0 8\r\n0 8 8\r\n+8 8. 8\r\n4 0 1 3 2 255 0 0\r\n4 4 5 7 6 255 0 0\r\n4 0 2 6 4 0.5 0.5 0.5\r\n4 1 3 7 5\r\n4 0 1 5 4 # front\r\n4 2 3 7 6\r\n";

/// An input, its epsilon, the line that is printed, and lines of the report.
struct Case {
    input: &'static [u8],
    epsilon: &'static str,
    line: &'static [u8],
    told: &'static [u8],
}

const CASES: [Case; 7] = [
    // A cube whose faces lie in planes of the lattice.
    Case {
        input: CUBE,
        epsilon: "2",
        line: b"points 125 tets 384 tracked 48 kept 48 inserted 12 rolled-back 0 tries 0 end stopped\n",
        told: b"\ntracked 48\nf 32 33 38 0\n",
    },
    // One triangle of the cube is not there: nothing is closed in.
    Case {
        input: b"OFF\n8 6 0\n0 0 0\n8 0 0\n0 8 0\n8 8 0\n0 0 8\n8 0 8\n0 8 8\n8 8 8\n4 0 1 3 2\n4 4 5 7 6\n4 0 2 6 4\n4 1 3 7 5\n4 0 1 5 4\n3 2 3 7\n",
        epsilon: "2",
        line: b"points 125 tets 384 tracked 44 kept 0 inserted 11 rolled-back 0 tries 0 end stopped\n",
        told: b"\ntracked 44\n",
    },
    // A triangle that stands twice.
    Case {
        input: b"OFF\n8 7 0\n0 0 0\n8 0 0\n0 8 0\n8 8 0\n0 0 8\n8 0 8\n0 8 8\n8 8 8\n4 0 1 3 2\n4 4 5 7 6\n4 0 2 6 4\n4 1 3 7 5\n4 0 1 5 4\n4 2 3 7 6\n3 0 1 3\n",
        epsilon: "2",
        line: b"points 125 tets 384 tracked 48 kept 48 inserted 13 rolled-back 0 tries 0 end stopped\n",
        told: b"\nt 12 inserted 0\n",
    },
    // A triangle without area.
    Case {
        input: b"OFF\n8 7 0\n0 0 0\n8 0 0\n0 8 0\n8 8 0\n0 0 8\n8 0 8\n0 8 8\n8 8 8\n4 0 1 3 2\n4 4 5 7 6\n4 0 2 6 4\n4 1 3 7 5\n4 0 1 5 4\n4 2 3 7 6\n3 0 0 1\n",
        epsilon: "2",
        line: b"points 125 tets 384 tracked 48 kept 48 inserted 12 rolled-back 1 tries 0 end stopped\n",
        told: b"\nt 12 rolled-back degenerate\ntries 0\nend stopped\nsecond 1\nt 12 rolled-back degenerate\ntries 0\nend stopped\ntracked 48\n",
    },
    // A triangle midway between two planes of the lattice.
    Case {
        input: b"OFF\n4 1 0\n0 0 0\n8 0 0\n8 8 0\n0 0 4\n3 0 1 2\n",
        epsilon: "2",
        line: b"points 140 tets 466 tracked 16 kept 0 inserted 1 rolled-back 0 tries 0 end stopped\n",
        told: b"\nt 0 inserted 15\n",
    },
    // A triangle at distance 1 from a plane of the lattice.
    Case {
        input: b"OFF\n4 1 0\n0 0 0\n8 0 0\n8 8 0\n0 0 6\n3 0 1 2\n",
        epsilon: "2",
        line: b"points 125 tets 384 tracked 4 kept 0 inserted 1 rolled-back 0 tries 0 end stopped\n",
        told: b"\nt 0 inserted 0\n",
    },
    // A triangle whose section strays too far from it.
    Case {
        input: b"OFF\n4 1 0\n0 0 0\n8 0 0\n8 8 0\n0 -2 6\n3 0 1 2\n",
        epsilon: "1",
        line: b"points 125 tets 384 tracked 0 kept 0 inserted 0 rolled-back 1 tries 0 end stopped\n",
        told: b"\nbox 16\nshift -4 -5 -5\ntriangles 1\nt 0 rolled-back stray 0 -1 -1 4 -1 -1 4 3 -1\ntries 0\nend stopped\nsecond 1\nt 0 rolled-back stray 0 -1 -1 4 -1 -1 4 3 -1\ntries 0\nend stopped\ntracked 0\n",
    },
];

/// Whether the text has these bytes somewhere.
pub fn contains(text: &[u8], part: &[u8]) -> bool {
    for i in 0..text.len() {
        if text[i..].starts_with(part) {
            return true;
        }
    }
    false
}

#[test]
fn soups_are_cut_into_the_lattice(rt: HostRuntime) -> Result<(), Fail> {
    let alloc = rt.alloc();
    for case in &CASES {
        let words = [
            "mesh",
            "IN.off",
            "OUT.msh",
            "REPORT",
            "--cells",
            "4",
            "--budget",
            "0",
            "--epsilon",
            case.epsilon,
        ];
        let ran = ran(alloc, &words, case.input, Vec::new(alloc), 4096)?;
        assert_eq!(rt; ran.status, 0);
        assert_eq!(rt; ran.out.bytes(), case.line);
        let report = ran.folder.bytes("REPORT").ok_or("a report")?;
        assert!(rt; contains(report, case.told));
    }
    Ok(())
}

#[test]
fn comments_and_colours_change_nothing(rt: HostRuntime) -> Result<(), Fail> {
    let alloc = rt.alloc();
    let words = [
        "mesh", "IN.off", "OUT.msh", "REPORT", "--cells", "4", "--budget", "0",
    ];
    let plain = ran(alloc, &words, CUBE, Vec::new(alloc), 4096)?;
    let dressed = ran(alloc, &words, DRESSED_CUBE, Vec::new(alloc), 4096)?;
    assert_eq!(rt;
        plain.folder.bytes("OUT.msh").ok_or("a mesh")?,
        dressed.folder.bytes("OUT.msh").ok_or("a mesh")?
    );
    Ok(())
}

const KEPT_FRONT: &[u8] =
    b"$MeshFormat\n2.2 0 8\n$EndMeshFormat\n$PhysicalNames\n1\n3 1 \"kept\"\n$EndPhysicalNames\n$Nodes\n27\n32 0 0 0\n";

#[test]
fn kept_part_of_a_cube(rt: HostRuntime) -> Result<(), Fail> {
    let alloc = rt.alloc();
    let words = [
        "mesh", "IN.off", "OUT.msh", "REPORT", "--kept", "k.msh", "--budget", "0",
    ];
    let ran = ran(alloc, &words, CUBE, Vec::new(alloc), 4096)?;
    assert_eq!(rt; ran.status, 0);
    let kept = ran.folder.bytes("k.msh").ok_or("the kept part")?;
    assert!(rt; kept.starts_with(KEPT_FRONT));
    assert!(rt; contains(kept, b"\n$Elements\n48\n1 4 2 1 1 32 33 38 63\n"));
    Ok(())
}
