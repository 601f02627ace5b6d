//! Logs of runs with threads: written, audited, traced and drawn.
use super::usage::words_of;
use std::alloc::Global;
use std::sync::Wait;
use std::test::*;
use std::thread::Threads;
use x10_asm::assemble;
use x10_cli::{audit_logged, run_logged, show_logged};
use x10_samples::SEVEN;
use x10_usage::parse;

/// Main prints, and starts an activity that starts another of its kind, without end.
const ENDLESS: &str =
    "places 1\nint 1\nfunc 1 0 none\nASYNC 0 0\nRET 0\nend\nfunc 1 0 none\nINTK 0 0\nPRINT 0\nASYNC 0 0\nRET 0\nend\nentry 1\n";

/// Main does nothing, at two places.
const TWO: &str = "places 2\nfunc 1 0 none\nRET 0\nend\nentry 0\n";

/// The words of a run with a log.
const RUN: [&str; 5] = ["run", "F", "--threads", "--log", "L"];

/// What a call answered: its status, what it printed and what it told.
#[derive(Drop)]
struct Answer {
    status: u8,
    out: Vec<u8>,
    err: Vec<u8>,
}

impl Answer {
    fn is(&self, status: u8, out: &str, err: &str) -> bool {
        self.status == status
            && self.out.as_slice() == out.as_bytes()
            && self.err.as_slice() == err.as_bytes()
    }
}

/// A run with threads, and the text of its log.
fn logged<R: Threads + Wait + Sync>(
    rt: &R,
    alloc: Global,
    words: &[&str],
    image: &[u8],
) -> Result<(Answer, Option<String>), Fail> {
    let words = words_of(alloc, words)?;
    let task = parse(alloc, &words, false).ok().ok_or("it is a task")?;
    let (mut out, mut err, mut log) = (Vec::new(alloc), Vec::new(alloc), None);
    let status = run_logged(rt, alloc, &task, image, None, &mut out, &mut err, &mut log);
    Ok((Answer { status, out, err }, log))
}

/// What is answered of a log.
#[derive(Drop)]
struct Answers {
    audit: Answer,
    trace: Answer,
    picture: Answer,
}

/// An audit of a log, a trace and a picture of it.
fn shown(alloc: Global, image: &[u8], log: &[u8]) -> Result<Answers, Fail> {
    Ok(Answers {
        audit: audited(alloc, image, log)?,
        trace: traced(alloc, image, log)?,
        picture: drawn(alloc, image, log)?,
    })
}

fn audited(alloc: Global, image: &[u8], log: &[u8]) -> Result<Answer, Fail> {
    let words = words_of(alloc, &["audit", "F", "L"])?;
    let task = parse(alloc, &words, false).ok().ok_or("it is a task")?;
    let (mut out, mut err) = (Vec::new(alloc), Vec::new(alloc));
    let status = audit_logged(alloc, &task, image, None, log, &mut out, &mut err);
    Ok(Answer { status, out, err })
}

fn traced(alloc: Global, image: &[u8], log: &[u8]) -> Result<Answer, Fail> {
    let words = words_of(alloc, &["trace", "F", "--log", "L"])?;
    let task = parse(alloc, &words, false).ok().ok_or("it is a task")?;
    let (mut out, mut err) = (Vec::new(alloc), Vec::new(alloc));
    let status = show_logged(alloc, &task, image, None, log, &mut out, &mut err);
    Ok(Answer { status, out, err })
}

fn drawn(alloc: Global, image: &[u8], log: &[u8]) -> Result<Answer, Fail> {
    let words = words_of(alloc, &["draw", "F", "S", "--log", "L"])?;
    let task = parse(alloc, &words, false).ok().ok_or("it is a task")?;
    let (mut out, mut err) = (Vec::new(alloc), Vec::new(alloc));
    let status = show_logged(alloc, &task, image, None, log, &mut out, &mut err);
    Ok(Answer { status, out, err })
}

/// Whether a log is refused so by all three, and nothing is printed.
fn fails_by(
    alloc: Global,
    image: &[u8],
    log: &[u8],
    status: u8,
    fault: &str,
) -> Result<bool, Fail> {
    let shown = shown(alloc, image, log)?;
    Ok(
        shown.audit.is(status, "", fault)
            && shown.trace.is(status, "", fault)
            && shown.picture.is(status, "", fault),
    )
}

fn refuses(alloc: Global, image: &[u8], log: &str, fault: &str) -> Result<bool, Fail> {
    fails_by(alloc, image, log.as_bytes(), 1, fault)
}

/// The front of a log: its first two lines, which say what it is of.
fn front(log: &str) -> Result<&str, Fail> {
    Ok(log.get(..81).ok_or("it has two lines")?)
}

#[test]
fn a_log_is_made_again(rt: HostRuntime) -> Result<(), Fail> {
    let alloc = rt.alloc();
    let (ran, log) = logged(&rt, alloc, &RUN, &SEVEN)?;
    let log = log.ok_or("there is a log")?;
    assert!(rt; ran.is(0, "0: 7\n", ""));
    let shown = shown(alloc, &SEVEN, log.as_bytes())?;
    assert!(rt; shown.audit.is(0, "0: 7\n", ""));
    assert!(rt;
        shown
            .trace
            .is(0, "S 0 0 0 0 INTK\nS 0 0 0 1 PRINT\nS 0 0 0 2 RET\n", "")
    );
    let picture = &shown.picture;
    assert!(rt; picture.status == 0 && picture.out.as_slice().starts_with("<?xml".as_bytes()));
    Ok(())
}

#[test]
fn a_log_of_a_run_that_stopped(rt: HostRuntime) -> Result<(), Fail> {
    let alloc = rt.alloc();
    let image = assemble(alloc, ENDLESS)?;
    let words = ["run", "F", "--threads", "--limit", "100", "--log", "L"];
    let (ran, log) = logged(&rt, alloc, &words, &image)?;
    let log = log.ok_or("there is a log")?;
    assert!(rt; ran.is(2, "0: 1\n", "x10p: turns\n"));
    assert!(rt; refuses(alloc, &image, &log, "x10p: open\n")?);
    // a run that is refused leaves none
    let (ran, log) = logged(&rt, alloc, &RUN, &[])?;
    assert!(rt; ran.status == 1 && ran.out.is_empty() && log.is_none());
    Ok(())
}

#[test]
fn logs_that_are_refused(rt: HostRuntime) -> Result<(), Fail> {
    let alloc = rt.alloc();
    let (_, log) = logged(&rt, alloc, &RUN, &SEVEN)?;
    let log = log.ok_or("there is a log")?;
    let front = front(&log)?;
    assert!(rt; refuses(alloc, &SEVEN, "x10 log 2\n", "x10p: log: line 1 Head\n")?);
    let other = format!(in alloc; "{front}places 1\n0 0*3 =8\n")?;
    assert!(rt; refuses(alloc, &SEVEN, &other, "x10p: differs: turn 0\n")?);
    let none = format!(in alloc; "{front}places 1\n")?;
    assert!(rt; refuses(alloc, &SEVEN, &none, "x10p: open\n")?);
    let image = assemble(alloc, ENDLESS)?;
    assert!(rt; refuses(alloc, &image, &log, "x10p: log: line 2 Image\n")?);
    assert!(rt; fails_by(alloc, &SEVEN, &[0xff], 4, "x10p: file\n")?);
    Ok(())
}

#[test]
fn a_log_of_too_few_places(rt: HostRuntime) -> Result<(), Fail> {
    let alloc = rt.alloc();
    let image = assemble(alloc, TWO)?;
    let (ran, log) = logged(&rt, alloc, &RUN, &image)?;
    let log = log.ok_or("there is a log")?;
    assert!(rt; ran.is(0, "", ""));
    let front = front(&log)?;
    let fewer = format!(in alloc; "{front}places 1\n")?;
    assert!(rt; refuses(alloc, &image, &fewer, "x10p: places\n")?);
    Ok(())
}
