//! Small logs: read and written again, changed in each of their fields, and at the limits of a turn.
use std::alloc::Global;
use std::fmt::Write;
use std::process::Abort;
use std::test::*;
use x10_hall::{Repeats, Turn};
use x10_log::{Log, LogCause, read_log, write_log};

/// The first three lines of a log.
const HEAD: &str = "x10 log 1
image 000102030405060708090a0b0c0d0e0f101112131415161718191a1b1c1d1e1f
places 2
";

/// The second line of a log, without the last byte of the digest.
const IMAGE: &str = "image 000102030405060708090a0b0c0d0e0f101112131415161718191a1b1c1d1e";

/// A turn.
const TURN: &str = "0 <3 <4 0*3 1 >1:0102ff =-5 \"a \\\"b\\\\c\\n\"\n";

/// The text of a log that was read.
fn written(alloc: Global, log: Log) -> Result<String, Fail> {
    let Log {
        digest,
        places,
        turns,
    } = log;
    let mut all = Repeats::new(alloc);
    for turn in turns {
        all.push(turn)?;
    }
    Ok(write_log(alloc, &digest, places, &all)?)
}

/// Why a text is refused: the line and the cause. Nothing, where it is read, and what is read is written as the same text.
fn refusal(alloc: Global, text: &str) -> Result<Option<(usize, LogCause)>, Fail> {
    match read_log(alloc, text) {
        Ok(log) => {
            let again = written(alloc, log)?;
            if again.as_str() == text {
                Ok(None)
            } else {
                Ok(Some((0, LogCause::Spelling)))
            }
        }
        Err(fault) => Ok(Some((fault.line, fault.cause))),
    }
}

/// The same of some lines behind the first three.
fn refusal_behind(alloc: Global, lines: &str) -> Result<Option<(usize, LogCause)>, Fail> {
    let mut text = String::new(alloc);
    write!(text, "{HEAD}{lines}")?;
    refusal(alloc, text.as_str())
}

/// A line of `count` words, each with a number of its own.
fn words(alloc: Global, before: &str, count: usize) -> Result<String, Fail> {
    let mut line = String::new(alloc);
    write!(line, "1")?;
    for at in 0..count {
        write!(line, " {before}{at}")?;
    }
    write!(line, "\n")?;
    Ok(line)
}

/// Whether a turn is the one of `TURN`.
fn is_turn(turn: &Turn) -> bool {
    turn.place == 0
        && turn.taken.as_slice() == [3, 4].as_slice()
        && turn.keys.len() == 4
        && turn.keys.at(2) == 0
        && turn.keys.at(3) == 1
        && turn.frames.len() == 1
        && turn.frames[0].to == 1
        && turn.frames[0].bytes.as_slice() == [1, 2, 255].as_slice()
        && turn.lines.len() == 2
}

/// Whether a log has the head `HEAD`, and then the turn `TURN` and one of place 1 that does nothing.
fn is_small(log: &Log) -> bool {
    log.digest[0] == 0
        && log.digest[31] == 31
        && log.places == 2
        && log.turns.len() == 2
        && is_turn(&log.turns[0])
        && log.turns[1].place == 1
        && log.turns[1].keys.is_empty()
}

#[test]
fn small_log_is_read(rt: HostRuntime) -> Result<(), Fail> {
    let mut text = String::new(rt.alloc());
    write!(text, "{HEAD}{TURN}1\n")?;
    let Ok(log) = read_log(rt.alloc(), text.as_str()) else {
        return Err("the log isn't read".into());
    };
    assert!(rt; is_small(&log));
    let again = written(rt.alloc(), log)?;
    assert!(rt; again.as_str() == text.as_str());
    Ok(())
}

/// Lines behind the first three, each with the cause for which the first of them is refused; none where they are read.
fn are_answered(
    alloc: Global,
    rt: &impl Abort,
    cases: &[(&str, Option<LogCause>)],
) -> Result<(), Fail> {
    for (lines, cause) in cases {
        let answer = refusal_behind(alloc, lines)?;
        assert_eq!(rt; answer, cause.map(|cause| (4, cause)));
    }
    Ok(())
}

#[test]
fn changed_places(rt: HostRuntime) -> Result<(), Fail> {
    are_answered(
        rt.alloc(),
        &rt,
        &[
            ("", None),
            (TURN, None),
            ("1 <3 <4 0*3 1 >1:0102ff =-5 \"a\"\n", None),
            ("2 <3 <4 0*3 1 >1:0102ff =-5 \"a\"\n", Some(LogCause::Place)),
            ("00 <3\n", Some(LogCause::Spelling)),
            ("\n", Some(LogCause::Place)),
        ],
    )
}

#[test]
fn changed_frames_that_are_taken(rt: HostRuntime) -> Result<(), Fail> {
    are_answered(
        rt.alloc(),
        &rt,
        &[
            ("0 <5 <4 0*3 1\n", None),
            ("0 <18446744073709551615\n", None),
            ("0 <18446744073709551616\n", Some(LogCause::Taken)),
            ("0 <03\n", Some(LogCause::Spelling)),
            ("0 <+3\n", Some(LogCause::Spelling)),
            ("0 <\n", Some(LogCause::Taken)),
        ],
    )
}

#[test]
fn changed_keys(rt: HostRuntime) -> Result<(), Fail> {
    are_answered(
        rt.alloc(),
        &rt,
        &[
            ("0 0*2 1\n", None),
            ("0 0*1 1\n", Some(LogCause::Spelling)),
            ("0 0*0 1\n", Some(LogCause::Spelling)),
            ("0 0*03\n", Some(LogCause::Spelling)),
            ("0 0*\n", Some(LogCause::Key)),
            ("0 0*3 0\n", Some(LogCause::Spelling)),
            ("0 0*3*3\n", Some(LogCause::Key)),
            ("0 k\n", Some(LogCause::Key)),
        ],
    )
}

#[test]
fn changed_frames_that_are_sent(rt: HostRuntime) -> Result<(), Fail> {
    are_answered(
        rt.alloc(),
        &rt,
        &[
            ("0 >2:0102ff\n", None),
            ("0 >1:\n", None),
            ("0 >65536:01\n", Some(LogCause::Frame)),
            ("0 >1:0102fF\n", Some(LogCause::Spelling)),
            ("0 >1:0102f\n", Some(LogCause::Frame)),
            ("0 >1:0g\n", Some(LogCause::Frame)),
            ("0 >1\n", Some(LogCause::Frame)),
        ],
    )
}

#[test]
fn changed_printed_lines(rt: HostRuntime) -> Result<(), Fail> {
    are_answered(
        rt.alloc(),
        &rt,
        &[
            ("0 =5\n", None),
            ("0 =-9223372036854775808\n", None),
            ("0 =9223372036854775808\n", Some(LogCause::Printed)),
            ("0 =-0\n", Some(LogCause::Spelling)),
            ("0 =\n", Some(LogCause::Printed)),
            ("0 \"\"\n", None),
            ("0 \"a\\q\"\n", Some(LogCause::Printed)),
            ("0 \"a\n", Some(LogCause::Printed)),
            ("0 \"a\"b\n", Some(LogCause::Printed)),
        ],
    )
}

#[test]
fn changed_words_and_line_ends(rt: HostRuntime) -> Result<(), Fail> {
    are_answered(
        rt.alloc(),
        &rt,
        &[
            ("0 =5 >1:\n", Some(LogCause::Spelling)),
            ("0 1 <3\n", Some(LogCause::Spelling)),
            ("0  1\n", Some(LogCause::Key)),
            ("0 1 \n", Some(LogCause::Key)),
            ("0 1\r\n", Some(LogCause::Key)),
            ("0 1", Some(LogCause::Ending)),
        ],
    )?;
    assert_eq!(rt;
        refusal_behind(rt.alloc(), "0 1\n0 2\n0 x\n")?,
        Some((6, LogCause::Key))
    );
    Ok(())
}

/// Why a log of these three lines and no turn is refused.
fn head_refusal(
    alloc: Global,
    first: &str,
    digest: &str,
    third: &str,
) -> Result<Option<(usize, LogCause)>, Fail> {
    let mut text = String::new(alloc);
    write!(text, "{first}\n{IMAGE}{digest}\n{third}\n")?;
    refusal(alloc, text.as_str())
}

#[test]
fn changed_heads(rt: HostRuntime) -> Result<(), Fail> {
    let alloc = rt.alloc();
    for (first, last, third, fault) in [
        ("x10 log 1", "1f", "places 2", None),
        ("x10 log 1", "2f", "places 64", None),
        ("x10 log 2", "1f", "places 2", Some((1, LogCause::Head))),
        ("x10 log 1", "1F", "places 2", Some((2, LogCause::Head))),
        ("x10 log 1", "1", "places 2", Some((2, LogCause::Head))),
        ("x10 log 1", "", "places 2", Some((2, LogCause::Head))),
        ("x10 log 1", "1f00", "places 2", Some((2, LogCause::Head))),
        ("x10 log 1", "1f", "places 0", Some((3, LogCause::Place))),
        ("x10 log 1", "1f", "places 65", Some((3, LogCause::Place))),
        ("x10 log 1", "1f", "places 02", Some((3, LogCause::Head))),
        ("x10 log 1", "1f", "place 2", Some((3, LogCause::Head))),
    ] {
        assert!(rt; head_refusal(alloc, first, last, third)? == fault);
    }
    assert!(rt; refusal(alloc, "")? == Some((1, LogCause::Head)));
    assert!(rt; refusal(alloc, "x10 log 1\n")? == Some((2, LogCause::Ending)));
    Ok(())
}

/// Why a log with a line of `count` words behind its head is refused.
fn words_refusal(
    alloc: Global,
    before: &str,
    count: usize,
) -> Result<Option<(usize, LogCause)>, Fail> {
    let line = words(alloc, before, count)?;
    refusal_behind(alloc, line.as_str())
}

#[test]
fn turns_at_their_limits(rt: HostRuntime) -> Result<(), Fail> {
    let alloc = rt.alloc();
    let too_many = Some((4, LogCause::Count));
    for (before, count, fault) in [
        ("<", 16, None),
        ("<", 17, too_many),
        ("", 64, None),
        ("", 65, too_many),
    ] {
        assert!(rt; words_refusal(alloc, before, count)? == fault);
    }
    for (line, fault) in [
        ("0 4*64\n", None),
        ("0 4*60 5*4\n", None),
        ("0 4*65\n", too_many),
        ("0 4*60 5*5\n", too_many),
        ("0 4*18446744073709551615\n", too_many),
    ] {
        assert!(rt; refusal_behind(alloc, line)? == fault);
    }
    Ok(())
}
