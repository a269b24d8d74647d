// Reports, written and read.
use crate::{Covering, Report, ReportIssue, Second, read_report, write_report};
use grid::{Face, Point};
use items::Items;
use mesh_types::{Again, Cert, Defect, End, Journal, Outcome, Try, TryLine, Verdict, Why};
use sqlite_items::Boxed;
use std::test::Fail;

#[test]
fn an_empty_soup(rt: HostRuntime) -> Result<(), Fail> {
    let alloc = rt.alloc();
    let report = Report {
        epsilon: 2,
        cells: 1,
        budget: 0,
        digits: None,
        side: 16,
        shift: [0, 0, 0],
        outcomes: Items::new(alloc),
        journal: Journal {
            lines: Items::new(alloc),
        },
        end: End::Stopped,
        faces: Items::new(alloc),
        second: None,
    };
    let text = write_report(alloc, &report)?;
    let wanted =
        b"tetsoup report 1\nepsilon 2\ncells 1\nbudget 0\nbox 16\nshift 0 0 0\ntriangles 0\ntries 0\nend stopped\ntracked 0\n";
    assert_eq!(rt; text.as_slice(), wanted.as_slice());
    let Ok(read) = read_report(alloc, wanted) else {
        panic!(rt; "not read");
    };
    let again = write_report(alloc, &read)?;
    assert_eq!(rt; again.as_slice(), wanted.as_slice());
    Ok(())
}

#[test]
fn every_part(rt: HostRuntime) -> Result<(), Fail> {
    let alloc = rt.alloc();
    let point = Point { x: 1, y: 2, z: 3 };
    let outcomes = [
        Outcome::Inserted { points: 7 },
        Outcome::RolledBack(Defect::Stray([point, point, point])),
    ];
    let tries = [TryLine {
        attempt: Try::Split(0, 7),
        verdict: Verdict::Refused(Why::Worse),
    }];
    let again = [Again {
        triangle: 1,
        outcome: Outcome::RolledBack(Defect::Degenerate),
    }];
    let leaves = [Cert::Leaf(0), Cert::Leaf(0), Cert::Leaf(1), Cert::Leaf(0)];
    let mut faces = Items::new(alloc);
    faces.push(Covering {
        face: Face([1, 2, 3]),
        cert: Cert::Split(Boxed::new(alloc, leaves)?),
    })?;
    let report = Report {
        epsilon: 2,
        cells: 1,
        budget: 9,
        digits: Some(1),
        side: 16,
        shift: [-4, 0, 10],
        outcomes: Items::from_slice(alloc, &outcomes)?,
        journal: Journal {
            lines: Items::from_slice(alloc, &tries)?,
        },
        end: End::Settled,
        faces,
        second: Some(Second {
            again: Items::from_slice(alloc, &again)?,
            journal: Journal {
                lines: Items::new(alloc),
            },
            end: End::Stopped,
        }),
    };
    let text = write_report(alloc, &report)?;
    let wanted =
        b"tetsoup report 1\nepsilon 2\ncells 1\nbudget 9\ndigits 1\nbox 16\nshift -4 0 10\ntriangles 2\nt 0 inserted 7\nt 1 rolled-back stray -3 2 13 -3 2 13 -3 2 13\ntries 1\nsplit 1 8 refused worse\nend settled\nsecond 1\nt 1 rolled-back degenerate\ntries 0\nend stopped\ntracked 1\nf 1 2 3 (0 0 1 0)\n";
    assert_eq!(rt; text.as_slice(), wanted.as_slice());
    let Ok(read) = read_report(alloc, wanted) else {
        panic!(rt; "not read");
    };
    let again = write_report(alloc, &read)?;
    assert_eq!(rt; again.as_slice(), wanted.as_slice());
    Ok(())
}

#[test]
fn the_first_bad_line(rt: HostRuntime) -> Result<(), Fail> {
    let alloc = rt.alloc();
    let head: &[u8] = b"tetsoup report 1\nepsilon 02\n";
    assert!(rt; matches!(read_report(alloc, head), Err(ReportIssue::Line(2))));
    let unended: &[u8] = b"tetsoup report 1\nepsilon 2\ncells 1";
    assert!(rt; matches!(read_report(alloc, unended), Err(ReportIssue::Line(3))));
    let more: &[u8] =
        b"tetsoup report 1\nepsilon 2\ncells 1\nbudget 0\nbox 16\nshift 0 0 0\ntriangles 0\ntries 0\nend stopped\ntracked 0\n\n";
    assert!(rt; matches!(read_report(alloc, more), Err(ReportIssue::Line(11))));
    let again: &[u8] =
        b"tetsoup report 1\nepsilon 2\ncells 1\nbudget 0\nbox 16\nshift 0 0 0\ntriangles 1\nt 0 rolled-back full\ntries 0\nend stopped\nsecond 1\nt 1 rolled-back full\n";
    assert!(rt; matches!(read_report(alloc, again), Err(ReportIssue::Line(12))));
    Ok(())
}
