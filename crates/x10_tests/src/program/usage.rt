use std::alloc::Global;
use std::test::*;
use x10_task::{Color, Schedule, Task, Verb, Window};
use x10_usage::parse;

/// The words of a command line, the program's name first.
pub(crate) fn words_of(alloc: Global, words: &[&str]) -> Result<Vec<String>, Fail> {
    let mut all = Vec::new(alloc);
    all.push(String::from_str(alloc, "x10p")?)?;
    for word in words {
        all.push(String::from_str(alloc, word)?)?;
    }
    Ok(all)
}

#[test]
fn words(rt: HostRuntime) -> Result<(), Fail> {
    let words = words_of(rt.alloc(), &["run", "a", "--places", "64"])?;
    let task = Task {
        verb: Verb::Run,
        input: "a",
        output: None,
        log: None,
        places: Some(64),
        limit: 1_000_000,
        schedule: Schedule::Rounds,
        seed: None,
        seeds: 100,
        window: Window::all(),
        threads: false,
        json: false,
        stats: false,
        activities: false,
        explain: false,
        color: Color::Auto,
    };
    assert!(rt; parse(rt.alloc(), &words, false).ok() == Some(task));
    let words = words_of(rt.alloc(), &["bounds", "b"])?;
    let found = parse(rt.alloc(), &words, false).ok().ok_or("it is a task")?;
    assert!(rt; found.verb == Verb::Bounds && found.input == "b");
    Ok(())
}

/// The schedule and the seed of the task that some words stand for.
fn schedule_in(alloc: Global, words: &[&str]) -> Result<(Schedule, Option<u64>), Fail> {
    let words = words_of(alloc, words)?;
    let task = parse(alloc, &words, false).ok().ok_or("it is a task")?;
    Ok((task.schedule, task.seed))
}

#[test]
fn schedules(rt: HostRuntime) -> Result<(), Fail> {
    let alloc = rt.alloc();
    let by_seed = schedule_in(alloc, &["run", "a", "--seed", "7"])?;
    assert!(rt; by_seed == (Schedule::Random, Some(7)));
    let random = schedule_in(alloc, &["trace", "a", "--schedule", "random"])?;
    assert!(rt; random == (Schedule::Random, None));
    let oldest = schedule_in(alloc, &["run", "a", "--schedule", "oldest"])?;
    assert!(rt; oldest == (Schedule::Oldest, None));
    let newest = schedule_in(alloc, &["draw", "a", "b.svg", "--schedule", "newest"])?;
    assert!(rt; newest == (Schedule::Newest, None));
    let rounds = schedule_in(alloc, &["run", "a", "--schedule", "rounds"])?;
    assert!(rt; rounds == (Schedule::Rounds, None));
    Ok(())
}
