// OFF texts, read and written.
use crate::{OffIssue, OffKind, read_off, write_off};
use grid::Memory;
use soup::{Raw, height_field, place};
use std::process::Abort;
use std::test::Fail;

/// Texts, each with its first refusal and the place of that.
static REFUSED: [(&str, OffKind, u64); 56] = [
    ("", OffKind::NoKeyword, 0),
    (" \t\r\n", OffKind::NoKeyword, 4),
    ("# only a comment", OffKind::NoKeyword, 16),
    ("off", OffKind::NoKeyword, 0),
    (" OFFX", OffKind::NoKeyword, 1),
    ("# c\nply", OffKind::NoKeyword, 4),
    ("COFF\n0 0 0\n", OffKind::OtherKeyword, 0),
    ("\n\t4nOFF", OffKind::OtherKeyword, 2),
    ("OFF BINARY\n", OffKind::OtherKeyword, 4),
    ("OFF # x\n\nBINARY 1", OffKind::OtherKeyword, 9),
    ("OFF", OffKind::Ended, 3),
    ("OFF#BINARY\n", OffKind::Ended, 11),
    ("OFF 1", OffKind::Ended, 5),
    ("OFF 1 0 ", OffKind::Ended, 8),
    ("OFF 1 0 0\n1 2", OffKind::Ended, 13),
    ("OFF 0 1 0", OffKind::Ended, 9),
    ("OFF 1 1 0 0 0 0 3 0 0", OffKind::Ended, 21),
    ("OFF\n3 1 0\n0 0 0\n1 0 0\n0 1 0\n3 0 1", OffKind::Ended, 33),
    ("OFF 1 2 0 0 0 0\n3 0 0 0 3 0 0 0", OffKind::Ended, 31),
    ("OFF 1 2 0 0 0 0\n3 0 0 0#\r3 0 0 0", OffKind::Ended, 32),
    ("OFF -1 0 0", OffKind::BadCount, 4),
    ("OFF 1 1. 0", OffKind::BadCount, 6),
    ("OFF 0 0 e", OffKind::BadCount, 8),
    ("OFF 0 1 0 x", OffKind::BadCount, 10),
    ("OFF 0 1 0 +3", OffKind::BadCount, 10),
    ("OFF 3\0 0 0", OffKind::BadCount, 4),
    ("OFF 3\u{e9} 0 0", OffKind::BadCount, 4),
    ("OFF 1 1 0 0 0 0 2 0 0", OffKind::ShortFace, 16),
    ("OFF 0 1 0 000", OffKind::ShortFace, 10),
    ("OFF 1048577 0 0", OffKind::TooMany, 4),
    ("OFF 0 1048577 x", OffKind::TooMany, 6),
    ("OFF 0 1 0 1048579 x", OffKind::TooMany, 10),
    (
        "OFF 10000000000000000000000000000000000000000 0 0",
        OffKind::TooMany,
        4,
    ),
    (
        "OFF 0 1 0 10000000000000000000000000000000000000000",
        OffKind::TooMany,
        10,
    ),
    ("OFF 1 2 0 0 0 0\n3 0 0 0\n1048578 0", OffKind::TooMany, 24),
    ("OFF 1 0 0 +", OffKind::BadNumber, 10),
    ("OFF 1 0 0 .", OffKind::BadNumber, 10),
    ("OFF 1 0 0 1e", OffKind::BadNumber, 10),
    ("OFF 1 0 0 1e+ 0 0", OffKind::BadNumber, 10),
    ("OFF 1 0 0 -.e1", OffKind::BadNumber, 10),
    ("OFF 1 0 0 1.2.3", OffKind::BadNumber, 10),
    ("OFF 1 0 0 --1", OffKind::BadNumber, 10),
    ("OFF 1 0 0 0 0 0x0", OffKind::BadNumber, 14),
    ("OFF 1 1 0 0 0 0 3 -0 0 0", OffKind::BadNumber, 18),
    ("OFF 1 1 0 0 0 0 3 0 0 0.", OffKind::BadNumber, 22),
    ("OFF\n1 0 0\n0.5 0 0\n", OffKind::NotWhole, 10),
    ("OFF 1 0 0 0 0 1e0", OffKind::NotWhole, 14),
    ("OFF 1 0 0 -.5E-99999999999999999999", OffKind::NotWhole, 10),
    ("OFF 1 0 0 9999999999999.1", OffKind::NotWhole, 10),
    ("OFF 1 0 0 1000000001 0 0", OffKind::TooLarge, 10),
    ("OFF 1 0 0 0 0 -1000000001.0", OffKind::TooLarge, 14),
    (
        "OFF 1 0 0 10000000000000000000000000000000000000000",
        OffKind::TooLarge,
        10,
    ),
    (
        "OFF\n3 1 0\n0 0 0\n1 0 0\n0 1 0\n3 0 1 3\n",
        OffKind::BadIndex,
        34,
    ),
    ("OFF 0 1 0 3 0", OffKind::BadIndex, 12),
    ("OFF 1 1 0 0 0 0 3 0 0 1", OffKind::BadIndex, 22),
    (
        "OFF 1 1 0 0 0 0 3 0 10000000000000000000000000000000000000000",
        OffKind::BadIndex,
        20,
    ),
];

#[test]
fn each_refusal_comes_at_its_word(rt: HostRuntime) {
    for (text, kind, place) in &REFUSED {
        let issue = read_off(rt.alloc(), text.as_bytes(), None).err();
        let want = OffIssue::At {
            kind: *kind,
            place: *place,
        };
        assert_eq!(rt; issue, Some(want), "{text:?}");
    }
}

/// Compares the soup that a text says.
fn compare(rt: &impl Abort, raw: &Raw, vertices: &[[i64; 3]], faces: &[[u32; 3]]) {
    assert_eq!(rt; raw.vertices.as_slice(), vertices);
    assert_eq!(rt; raw.faces.as_slice(), faces);
}

#[test]
fn texts_are_read(rt: HostRuntime) -> Result<(), Fail> {
    let alloc = rt.alloc();
    let raw = read_off(alloc, b"OFF 0 0 0", None)?;
    compare(&rt, &raw, &[], &[]);
    let large = b"OFF 01 00 00000000000000000009\n.0 +1000000000 -1000000000.00#";
    let raw = read_off(alloc, large, None)?;
    compare(&rt, &raw, &[[0, 1_000_000_000, -1_000_000_000]], &[]);
    let raw = read_off(alloc, b"OFF\r1\r1\r0\r5\r-6\r7\r3 0 0 0 # end", None)?;
    compare(&rt, &raw, &[[5, -6, 7]], &[[0, 0, 0]]);
    let raw = read_off(alloc, b"OFF#\xff\x00\n1#y\n0 0 1#z\n2 3 \xfe\x00", None)?;
    compare(&rt, &raw, &[[1, 2, 3]], &[]);
    Ok(())
}

#[test]
fn faces_become_fans(rt: HostRuntime) -> Result<(), Fail> {
    let text = "OFF 4 2 0\n0 0 0\n1 0 0\n2 0 0\n3 0 0\n4 0\n1 2\n3 2 9 # 9\n4 3 2 3 2 0.5";
    let raw = read_off(rt.alloc(), text.as_bytes(), None)?;
    assert_eq!(rt; raw.vertices.len(), 4);
    let fans = [[0, 1, 2], [0, 2, 3], [3, 2, 3], [3, 3, 2]];
    assert_eq!(rt; raw.faces.as_slice(), fans.as_slice());
    Ok(())
}

const CUBE: &str = "OFF\n8 6 0\n0 0 0\n8 0 0\n0 8 0\n8 8 0\n0 0 8\n8 0 8\n0 8 8\n8 8 8\n\
4 0 1 3 2\n4 4 5 7 6\n4 0 2 6 4\n4 1 3 7 5\n4 0 1 5 4\n4 2 3 7 6\n";

const COLOURED_CUBE: &str = "OFF 8 6 12 # a cube\r\n# vertices\r\n0 0 0\r\n8.000 0 0\r\n0 8 0\r\n\
8 8 0\r\n0 0 8\r\n8 0 8\r\n0 8 8\r\n+8 8. 8\r\n4 0 1 3 2 255 0 0\r\n4 4 5 7 6 255 0 0\r\n\
4 0 2 6 4 0.5 0.5 0.5\r\n4 1 3 7 5\r\n4 0 1 5 4 # front\r\n4 2 3 7 6\r\n";

#[test]
fn a_cube_may_be_spelled_in_two_ways(rt: HostRuntime) -> Result<(), Fail> {
    let alloc = rt.alloc();
    let plain = read_off(alloc, CUBE.as_bytes(), None)?;
    let coloured = read_off(alloc, COLOURED_CUBE.as_bytes(), None)?;
    compare(
        &rt,
        &coloured,
        plain.vertices.as_slice(),
        plain.faces.as_slice(),
    );
    assert_eq!(rt; plain.vertices.len(), 8);
    assert_eq!(rt; plain.faces.len(), 12);
    let soup = place(alloc, &plain, 2, 1)?;
    assert_eq!(rt; soup.side, 16);
    assert_eq!(rt; soup.shift, [-4; 3]);
    Ok(())
}

#[test]
fn decimals_are_rounded(rt: HostRuntime) -> Result<(), Fail> {
    let alloc = rt.alloc();
    let text = "OFF 3 0 0 1.005 -1.005 1e-400 0e400 10000000.004 .5 -2.5E-2 0.0049999 +12e-1";
    let raw = read_off(alloc, text.as_bytes(), Some(2))?;
    let hundredths = [[101, -100, 0], [0, 1_000_000_000, 50], [-2, 0, 120]];
    compare(&rt, &raw, &hundredths, &[]);
    let raw = read_off(alloc, b"OFF 1 0 0 0.5 -0.5 25e-1", Some(0))?;
    compare(&rt, &raw, &[[1, 0, 3]], &[]);
    Ok(())
}

/// Texts that are refused where coordinates are read in hundredths.
static REFUSED_HUNDREDTHS: [(&str, OffKind, u64); 5] = [
    ("OFF 1 0 0 1e400 0 0", OffKind::TooLarge, 10),
    ("OFF 1 0 0 0 -10000000.006 0", OffKind::TooLarge, 12),
    (
        "OFF 1 0 0 000000000000000000000000000000001 0 0",
        OffKind::BadNumber,
        10,
    ),
    ("OFF 1 0 0 1e 0 0", OffKind::BadNumber, 10),
    ("OFF 1 0 0 0 0 1.5.", OffKind::BadNumber, 14),
];

#[test]
fn decimals_are_refused(rt: HostRuntime) {
    for (text, kind, place) in &REFUSED_HUNDREDTHS {
        let issue = read_off(rt.alloc(), text.as_bytes(), Some(2)).err();
        let want = OffIssue::At {
            kind: *kind,
            place: *place,
        };
        assert_eq!(rt; issue, Some(want), "{text:?}");
    }
}

#[test]
fn a_height_field_is_written(rt: HostRuntime) -> Result<(), Memory> {
    let raw = height_field(rt.alloc(), 1, 1)?;
    let text = write_off(rt.alloc(), &raw)?;
    let want = b"OFF\n4 2 0\n0 0 1\n4 0 2\n0 4 4\n4 4 5\n3 0 1 3\n3 0 3 2\n";
    assert_eq!(rt; text.as_slice(), want.as_slice());
    Ok(())
}
