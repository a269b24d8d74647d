// Words and the jobs or faults that they give.
use crate::{Job, WordFault, WordsIssue, parse};
use std::alloc::Global;
use std::test::Fail;

fn fault(alloc: Global, words: &[&str]) -> Option<WordFault> {
    match parse(alloc, words) {
        Err(WordsIssue::Refused(fault)) => Some(fault),
        _ => None,
    }
}

#[test]
fn options_and_defaults(rt: HostRuntime) -> Result<(), Fail> {
    let alloc = rt.alloc();
    let words = ["mesh", "a", "--cells=08", "b", "--kept", "k", "--", "-r"];
    let Ok(Job::Mesh(job)) = parse(alloc, &words) else {
        panic!(rt; "no job");
    };
    assert_eq!(rt; job.report.as_str(), "-r");
    assert_eq!(rt; job.epsilon, 2);
    assert_eq!(rt; job.cells, 8);
    assert_eq!(rt; job.budget, 100000);
    assert!(rt; job.digits.is_none());
    assert!(rt; job.kept.is_some());
    Ok(())
}

#[test]
fn the_other_commands(rt: HostRuntime) -> Result<(), Fail> {
    let alloc = rt.alloc();
    let Ok(Job::Check(job)) = parse(alloc, &["check", "a", "b", "r", "--digits", "2"]) else {
        panic!(rt; "no job");
    };
    assert_eq!(rt; job.digits, Some(2));
    let Ok(Job::Demo(job)) = parse(alloc, &["demo", "16", "4294967295", "a", "b", "r"]) else {
        panic!(rt; "no job");
    };
    assert_eq!(rt; (job.k, job.seed), (16, 4294967295));
    Ok(())
}

#[test]
fn the_first_fault(rt: HostRuntime) -> Result<(), Fail> {
    let alloc = rt.alloc();
    assert_eq!(rt; fault(alloc, &[]), Some(WordFault::NoCommand));
    assert_eq!(rt; fault(alloc, &["Mesh"]), Some(WordFault::Command));
    assert_eq!(rt; fault(alloc, &["mesh", "a", "b"]), Some(WordFault::Words));
    let zero = ["mesh", "a", "b", "c", "--epsilon=0"];
    assert_eq!(rt; fault(alloc, &zero), Some(WordFault::Epsilon));
    let three = ["mesh", "a.off", "b.msh", "r", "--cells", "3"];
    assert_eq!(rt; fault(alloc, &three), Some(WordFault::Cells));
    let equal = ["mesh", "a.off", "a.off", "r"];
    assert_eq!(rt; fault(alloc, &equal), Some(WordFault::SameName));
    let twice = ["mesh", "a", "b", "r", "--cells=4", "--cells=4"];
    assert_eq!(rt; fault(alloc, &twice), Some(WordFault::Words));
    let kept = ["mesh", "a", "b", "r", "--kept", "r"];
    assert_eq!(rt; fault(alloc, &kept), Some(WordFault::SameName));
    let seed = ["demo", "1", "4294967296", "a", "b", "-"];
    assert_eq!(rt; fault(alloc, &seed), Some(WordFault::Seed));
    Ok(())
}
