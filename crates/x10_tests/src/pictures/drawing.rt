//! Pictures of runs.
use super::drawn::{BESIDE, CROWD, LOST, REGIONS, SEVEN_DRAWN, TURNS};
use crate::sources::verified_of;
use crate::worlds::calls::world_of;
use std::alloc::{AllocError, Global};
use std::test::*;
use x10_asm::assemble;
use x10_draw::{Counts, Drawing, push_escaped};
use x10_model::Event;
use x10_samples::{AWAY, SEVEN};
use x10_verify::Verified;
use x10_world::{Done, Rounds, World};

/// Makes the next events of a run, at most `limit`, and notes them.
fn noted(
    rounds: &mut Rounds,
    world: &mut World,
    drawing: &mut Drawing,
    limit: u64,
) -> Result<(), Fail> {
    for _ in 0..limit {
        let event = rounds.next(world)?.ok_or("something lives")?;
        let done = world.event(event)?;
        drawing.note(world, event, &done)?;
        if world.closed() {
            return Ok(());
        }
    }
    Ok(())
}

/// Makes the next events of a run, at most `limit`, and doesn't keep what was noted of them.
fn pass(
    alloc: Global,
    verified: &Verified,
    rounds: &mut Rounds,
    world: &mut World,
    limit: u64,
) -> Result<(), Fail> {
    let mut drawing = Drawing::new(alloc, verified, world, 0)?;
    noted(rounds, world, &mut drawing, limit)
}

/// The counts and the picture of the events in a world from `before` on, at most `limit`.
fn drawn_in(
    alloc: Global,
    verified: &Verified,
    world: &mut World,
    before: u64,
    limit: u64,
) -> Result<(Counts, String), Fail> {
    let mut rounds = Rounds::new(alloc, world)?;
    pass(alloc, verified, &mut rounds, world, before)?;
    let mut drawing = Drawing::new(alloc, verified, world, before)?;
    noted(&mut rounds, world, &mut drawing, limit)?;
    Ok((drawing.counts(), drawing.svg()?))
}

/// The counts and the picture of the events of a run from `before` on, at most `limit`.
fn drawn(
    alloc: Global,
    image: &[u8],
    places: u16,
    before: u64,
    limit: u64,
) -> Result<(Counts, String), Fail> {
    let verified = verified_of(alloc, image)?;
    let mut world = world_of(alloc, &verified, places)?;
    drawn_in(alloc, &verified, &mut world, before, limit)
}

/// The picture of a run's first events, for a program as text.
fn pictured(alloc: Global, text: &str, places: u16, limit: u64) -> Result<String, Fail> {
    let image = assemble(alloc, text)?;
    let (_, svg) = drawn(alloc, &image, places, 0, limit)?;
    Ok(svg)
}

/// The picture of the events of a run after the first `before` ones.
fn pictured_from(alloc: Global, text: &str, places: u16, before: u64) -> Result<String, Fail> {
    let image = assemble(alloc, text)?;
    let (_, svg) = drawn(alloc, &image, places, before, 1000)?;
    Ok(svg)
}

/// The picture of a run in a world of which a drawing wasn't told the first `missed` events.
fn late_in(
    alloc: Global,
    verified: &Verified,
    world: &mut World,
    missed: u64,
) -> Result<String, Fail> {
    let mut drawing = Drawing::new(alloc, verified, world, 0)?;
    let mut rounds = Rounds::new(alloc, world)?;
    pass(alloc, verified, &mut rounds, world, missed)?;
    noted(&mut rounds, world, &mut drawing, 1000)?;
    Ok(drawing.svg()?)
}

/// The same for a program as text.
fn pictured_late(alloc: Global, text: &str, places: u16, missed: u64) -> Result<String, Fail> {
    let image = assemble(alloc, text)?;
    let verified = verified_of(alloc, &image)?;
    let mut world = world_of(alloc, &verified, places)?;
    late_in(alloc, &verified, &mut world, missed)
}

/// How high a picture is, in pixels.
fn height(svg: &str) -> Option<u64> {
    let (_, from) = svg.split_once(" height=\"")?;
    let (number, _) = from.split_once('"')?;
    number.parse::<u64>().ok()
}

/// Whether a picture has all these parts.
fn has(svg: &str, parts: &[&str]) -> bool {
    for part in parts {
        if !svg.contains(*part) {
            return false;
        }
    }
    true
}

#[test]
fn escaped_texts(rt: HostRuntime) -> Result<(), Fail> {
    let mut out = String::from_str(rt.alloc(), "<")?;
    push_escaped(&mut out, "")?;
    assert_eq!(rt; out.as_str(), "<");
    push_escaped(
        &mut out,
        "a<b>&\"c' \t\n\r\u{0}\u{1F} \u{7F}\u{E9}\u{2026}\u{D7FF}\u{E000}\u{FFFD}\u{FFFE}\u{FFFF}\u{10000}",
    )?;
    let want =
        "<a&lt;b&gt;&amp;&quot;c&apos; &#9;&#10;&#13;\u{FFFD}\u{FFFD} \u{7F}\u{E9}\u{2026}\u{D7FF}\u{E000}\u{FFFD}\u{FFFD}\u{FFFD}\u{10000}";
    assert_eq!(rt; out.as_str(), want);
    Ok(())
}

#[test]
fn a_short_run_drawn(rt: HostRuntime) -> Result<(), Fail> {
    let (found, svg) = drawn(rt.alloc(), &SEVEN, 1, 0, 100)?;
    let counts = Counts {
        steps: 3,
        taken: 0,
        idle: 0,
    };
    assert!(rt; found == counts);
    let parts = [
        "<?xml version=\"1.0\" encoding=\"UTF-8\"?>\n<svg ",
        "<title>The events of a run. Places: 1</title>",
        "Places: 1. Steps: 3, frames taken in: 0, idle events: 0.",
    ];
    assert!(rt; has(&svg, &parts));
    assert!(rt; svg.ends_with(SEVEN_DRAWN));
    Ok(())
}

#[test]
fn a_stay_beside_another_drawn(rt: HostRuntime) -> Result<(), Fail> {
    let svg = pictured(rt.alloc(), BESIDE, 1, 1000)?;
    let parts = [
        // Main goes on in another lane, and is not away; its finishes are one in the other.
        "<path d=\"M58 210V354\" stroke=\"#4a76b8\" stroke-width=\"2\"/>",
        "<title>finish 0.1</title>",
        "<path d=\"M54 186H48V414H54\" fill=\"none\" stroke=\"#c08000\" stroke-width=\"1.5\"><title>finish 0.2</title>",
        "<title>Shift 0 from place 0 to place 0</title>",
        // Of 17 steps in a row, 8 have rows of their own.
        ">\u{22EE} 9 more</text>",
        // It waits from its ASYNC on. What it started is in the lane of the stay that has ended.
        "<path d=\"M58 366V414\" stroke=\"#4a76b8\" stroke-width=\"6\" stroke-dasharray=\"1 3\"/>",
        "<path d=\"M186 366H220\" stroke=\"#00795c\" stroke-width=\"1.5\" marker-end=\"url(#spawn)\"/>",
        "<title>&lt;&amp;&gt;&#10; &apos;a line&apos; that is &quot;longer&quot; than a label shows</title>1:1 PRINT &lt;&amp;&gt;  &apos;a line&apos; that is &quot;longe\u{2026}</text>",
    ];
    assert!(rt; has(&svg, &parts));
    Ok(())
}

#[test]
fn regions_drawn(rt: HostRuntime) -> Result<(), Fail> {
    let svg = pictured(rt.alloc(), REGIONS, 1, 1000)?;
    let parts = [
        "Places: 1. Steps: 11, frames taken in: 0, idle events: 3.",
        // From an ATOMB to its ATOME the bar is another one.
        "<path d=\"M58 128V152\" stroke=\"#4a76b8\" stroke-width=\"6\"/>\n<path d=\"M58 152V188\" stroke=\"#17365f\" stroke-width=\"8\"/>",
        // What is kept out waits, to its next step: a quiet one here.
        "<path d=\"M224 140V200\" stroke=\"#4a76b8\" stroke-width=\"6\" stroke-dasharray=\"1 3\"/>\n<path d=\"M58 188V212\" stroke=\"#4a76b8\" stroke-width=\"6\"/>",
        "<path d=\"M224 200V224\" stroke=\"#4a76b8\" stroke-width=\"6\"/>\n<path d=\"M224 224V248\" stroke=\"#17365f\" stroke-width=\"8\"/>",
        ">1:1 ATOMB</text>",
        // The legend tells of what is there, and of nothing else.
        ">atomic region</text></g>",
        ">ASYNC</text></g>",
    ];
    assert!(rt; has(&svg, &parts));
    for word in [
        "Spawn", "Shift", "Report", "PRINT", "away", "FINB", "\u{22EE}",
    ] {
        assert!(rt; !svg.contains(word));
    }
    Ok(())
}

#[test]
fn three_places_drawn(rt: HostRuntime) -> Result<(), Fail> {
    let svg = pictured(rt.alloc(), AWAY, 64, 1000)?;
    let parts = [
        "<path d=\"M118 184V244\" stroke=\"#4a76b8\" stroke-dasharray=\"4 3\"/>",
        // An arrow goes from the label of the AT to the bar that begins, and back to the label of the Back.
        "<path d=\"M216 184L320 196\" fill=\"none\" stroke=\"#d55e00\" stroke-width=\"2\" marker-end=\"url(#shift)\"><title>Shift 0 from place 0 to place 1</title>",
        "<path d=\"M320 232L168 244\"",
        ">Shift 0: f1 begins</text>",
        ">1:2 RET Back 2 Report 3 end</text>",
        // One column stands for the places at which nothing happens.
        ">place 2</text>",
        ">places 3 to 63</text>",
    ];
    assert!(rt; has(&svg, &parts));
    assert!(rt; !svg.contains(">place 4</text>"));
    Ok(())
}

#[test]
fn values_drawn(rt: HostRuntime) -> Result<(), Fail> {
    let svg = pictured(rt.alloc(), LOST, 1, 1000)?;
    let parts = [
        ">main: f2 begins</text>",
        ">2:1 NEW r1 = object 0</text>",
        ">2:3 ASYNC f0(object 0) begins</text>",
        // Both read 0, and both write 1.
        ">0:1 GET r1 = 0</text>",
        ">0:2 ADD r1 = 1</text>",
        ">0:3 PUT r1 = 1</text>",
        ">2:6 GET r0 = 1</text>",
        ">2:7 PRINT 1</text>",
        ">2:8 CALL f1</text>",
        ">1:0 TEXTK r0 = &quot;a text that is longer than\u{2026}</text>",
        ">1:1 RET to f2: r0 = &quot;a text that is longer than\u{2026}</text>",
    ];
    assert!(rt; has(&svg, &parts));
    assert!(rt; !has(&svg, &["PUT r1 = 2"]));
    Ok(())
}

#[test]
fn long_runs_drawn(rt: HostRuntime) -> Result<(), Fail> {
    // 2,400 steps: of the first ones each has a row, and later ones share more and more.
    let turns = pictured(rt.alloc(), TURNS, 1, 10_000)?;
    let parts = [
        ">1:1 FINB finish 0.1</text>",
        ">\u{22EE} 6 more</text>",
        ">\u{22EE} 24 more</text>",
        "<title>finish 0.400</title>",
    ];
    assert!(rt; has(&turns, &parts));
    assert!(rt; height(&turns).is_some_and(|pixels| 2000 < pixels && pixels < 4000));
    // A hundred lanes stand close together, and labels say to which lane they belong.
    let crowd = pictured(rt.alloc(), CROWD, 1, 1000)?;
    let parts = [
        ">[3] before a label: it belongs to lane 3.</text>",
        ">[0] main: f1 begins</text>",
        ">[1] 0:1 HERE r0 = place 0</text>",
    ];
    assert!(rt; has(&crowd, &parts));
    Ok(())
}

#[test]
fn a_part_of_a_run_drawn(rt: HostRuntime) -> Result<(), Fail> {
    let begun = pictured(rt.alloc(), AWAY, 3, 3)?;
    assert!(rt;
        has(
            &begun,
            &[", in flight at the end</title>", "M54 140H45V176H45\" "]
        )
    );
    // What a drawing hasn't seen it leaves out: a stay begins where it is first seen, and a frame has no arrow.
    let late = pictured_late(rt.alloc(), AWAY, 3, 3)?;
    assert!(rt;
        has(
            &late,
            &[">frame 0</text>", "PRINT 5</text>", ":6 RET end</text>"]
        )
    );
    Ok(())
}

#[test]
fn a_run_drawn_from_its_middle(rt: HostRuntime) -> Result<(), Fail> {
    let away = pictured_from(rt.alloc(), AWAY, 3, 3)?;
    let parts = [
        ">Events 4 to 21 of the run. Places: 3. Steps: 10, frames taken in: 5, idle events: 3.</text>",
        // Main is away from the first row on. Its finish is open above, and is closed later.
        "<path d=\"M118 148V208\" stroke=\"#4a76b8\" stroke-dasharray=\"4 3\"/>",
        "<path d=\"M105 148H105V256H114\" fill=\"none\" stroke=\"#c08000\" stroke-width=\"1.5\"><title>finish 0.1</title>",
        ">stands at 2:2</text>",
        ">2:3 FINE finish 0.1</text>",
        // The frame in flight comes from the head of the lifeline of place 0.
        "<path d=\"M30 148L296 160\" fill=\"none\" stroke=\"#d55e00\" stroke-width=\"2\" marker-end=\"url(#shift)\"><title>Shift 0 from place 0 to place 1</title>",
        ">Shift 0: f1 begins</text>",
    ];
    assert!(rt; has(&away, &parts));
    assert!(rt; !has(&away, &["main"]));
    // Main goes on beside itself. What begins later gets the key that its place gives it.
    let beside = pictured_from(rt.alloc(), BESIDE, 1, 6)?;
    let parts = [
        "<path d=\"M58 162V294\" stroke=\"#4a76b8\" stroke-width=\"2\"/>",
        ">0:5 RET Back 1 end</text>",
        "<path d=\"M212 306V342\" stroke=\"#4a76b8\" stroke-width=\"6\"/>",
        "<path d=\"M48 162H48V354H54\"",
    ];
    assert!(rt; has(&beside, &parts));
    // A finish that opens later has the number that its place gives it.
    let turns = pictured_from(rt.alloc(), TURNS, 1, 3000)?;
    assert!(rt; !has(&turns, &["finish 0.2<"]) && has(&turns, &["FINB finish 0.3"]));
    Ok(())
}

#[test]
fn events_of_nothing_drawn(rt: HostRuntime) -> Result<(), Fail> {
    let verified = verified_of(rt.alloc(), &SEVEN)?;
    let world = world_of(rt.alloc(), &verified, 1)?;
    let counts = Counts {
        steps: 0,
        taken: 1,
        idle: 2,
    };
    assert!(rt; counts_of_nothing(rt.alloc(), &verified, &world)? == counts);
    Ok(())
}

/// What a drawing counts of three events of places and frames that a world hasn't.
fn counts_of_nothing(
    alloc: Global,
    verified: &Verified,
    world: &World,
) -> Result<Counts, AllocError> {
    let mut drawing = Drawing::new(alloc, verified, world, 0)?;
    drawing.note(world, Event::Step(99, usize::MAX), &Done::Idle)?;
    drawing.note(world, Event::Deliver(99), &Done::Idle)?;
    drawing.note(world, Event::Deliver(99), &Done::Taken { to: 99 })?;
    Ok(drawing.counts())
}
