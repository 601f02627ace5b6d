//! At the greatest counts, which no run of a test reaches: so it is of a private function.
use std::test::*;
use x10_finish::count::{Change, Count, apply};
use x10_kinds::{Limit, Stop};

#[test]
fn counts_meet_their_limit(rt: HostRuntime) -> Result<(), Fail> {
    let (alloc, most) = (rt.alloc(), u32::MAX);
    let (begins, sends, receives) = (Change::Begins, Change::Sends(1), Change::Receives(1));
    for (change, before, after) in [
        (begins, (65_535, 7, 7), Some((65_536, 7, 7))),
        (begins, (most - 1, 7, 7), Some((most, 7, 7))),
        (begins, (most, 7, 7), None),
        (sends, (most, 65_535, 7), Some((most, 65_536, 7))),
        (sends, (7, most - 1, 7), Some((7, most, 7))),
        (sends, (7, most, 7), None),
        (receives, (65_535, 7, 65_535), Some((65_536, 7, 65_536))),
        (receives, (most - 1, 7, most - 1), Some((most, 7, most))),
        (receives, (7, 7, most), None),
        (receives, (most, 7, 7), None),
    ] {
        let mut count = Count {
            live: before.0,
            sent: Vec::from_slice(alloc, &[most, before.1])?,
            received: Vec::from_slice(alloc, &[most, before.2])?,
        };
        let answer = apply(&mut count, change);
        assert_eq!(rt;
            answer.err(),
            if after.is_some() {
                None
            } else {
                Some(Stop::Limit(Limit::Activities))
            }
        );
        let (live, sent, received) = after.unwrap_or(before);
        assert_eq!(rt; count.live, live);
        assert_eq!(rt; count.sent.as_slice(), [most, sent].as_slice());
        assert_eq!(rt; count.received.as_slice(), [most, received].as_slice());
    }
    Ok(())
}
