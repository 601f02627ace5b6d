//! Runs with a thread for each place, into writers.
use super::usage::words_of;
use super::writers::fails;
use std::alloc::Global;
use std::sync::Wait;
use std::test::*;
use std::thread::Threads;
use x10_asm::assemble;
use x10_cli::execute;
use x10_task::Task;
use x10_usage::parse;

/// A number goes round three places, one less at each; each prints it.
const RELAY: &str =
    "places 3\nint 5\nint 1\nfunc 3 0 none int\nJZ 0 7\nPRINT 0\nINTK 1 1\nSUB 0 0 1\nHERE 2\nNEXTP 2 2\nATA 0 2 0\nRET 0\nend\nfunc 1 0 none\nINTK 0 0\nASYNC 0 0\nRET 0\nend\nentry 1\n";

/// Main prints, and starts an activity that starts another of its kind, without end.
const ENDLESS: &str =
    "places 1\nint 1\nfunc 1 0 none\nASYNC 0 0\nRET 0\nend\nfunc 1 0 none\nINTK 0 0\nPRINT 0\nASYNC 0 0\nRET 0\nend\nentry 1\n";

/// Whether a task on an image has this status, output and fault.
fn does<R: Threads + Wait + Sync>(
    rt: &R,
    alloc: Global,
    task: &Task,
    image: &[u8],
    wanted: (u8, &str, &str),
) -> bool {
    let (mut out, mut err) = (Vec::new(alloc), Vec::new(alloc));
    let status = execute(rt, alloc, task, image, None, &mut out, &mut err);
    let (wanted, text, fault) = wanted;
    status == wanted && out.as_slice() == text.as_bytes() && err.as_slice() == fault.as_bytes()
}

#[test]
fn a_thread_for_each_place(rt: HostRuntime) -> Result<(), Fail> {
    let alloc = rt.alloc();
    let image = assemble(alloc, RELAY)?;
    let words = words_of(alloc, &["run", "F", "--threads"])?;
    let task = parse(alloc, &words, false).ok().ok_or("it is a task")?;
    let wanted = (0, "0: 5\n0: 2\n1: 4\n1: 1\n2: 3\n", "");
    assert!(rt; task.threads && does(&rt, alloc, &task, &image, wanted));
    Ok(())
}

#[test]
fn lines_before_a_fault(rt: HostRuntime) -> Result<(), Fail> {
    let alloc = rt.alloc();
    let image = assemble(alloc, ENDLESS)?;
    let words = words_of(alloc, &["run", "F", "--threads", "--limit", "100"])?;
    let task = parse(alloc, &words, false).ok().ok_or("it is a task")?;
    assert!(rt; does(&rt, alloc, &task, &image, (2, "0: 1\n", "x10p: turns\n")));
    // where they can't be written, that is the fault
    assert!(rt; fails(&rt, alloc, &task, &image, "0: 1\n"));
    Ok(())
}
