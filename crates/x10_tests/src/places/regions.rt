//! Atomic regions: what they keep out at their place, and what goes on.
use super::calls::{at_place_of, idles, is_closed, ran};
use std::test::*;
use x10_place::{Line, Place, Stepped};

/// Two activities count up a byte that they share, each in an atomic region.
const COUNTED: &str = "version 2
places 1
int 0
int 1
func 4 0 none rail
ATOMB
INTK 1 0
RGET 2 0 1 6
INTK 3 1
ADD 2 2 3
RSET 0 1 2 6
ATOME
RET 0
end
func 2 0 none
INTK 0 1
RAIL 1 0 9
FINB
ASYNC 1 0
ASYNC 1 0
FINE
INTK 0 0
RGET 0 1 0 9
PRINT 0
RET 0
end
entry 1
";

/// Whether so many steps of the activity with a key move.
fn move_on(place: &mut Place, key: usize, steps: usize) -> bool {
    (0..steps).all(|_| matches!(place.step(key), Ok(Stepped::Moved(_))))
}

/// Whether there is nothing to do for a key, also for a stretch of steps.
fn is_kept_out(place: &mut Place, key: usize) -> bool {
    idles(place, key) && ran(place, key, 10) == Some(0)
}

/// Whether one activity is inside, and keeps out main and another one.
fn keeps_others_out(place: &mut Place, one: usize, other: usize) -> bool {
    place.inside() == Some(one) && is_kept_out(place, 0) && is_kept_out(place, other)
}

#[test]
fn one_inside_keeps_the_others_out(rt: HostRuntime) -> Result<(), Fail> {
    for (one, other) in [(1, 2), (2, 1)] {
        at_place_of(rt.alloc(), COUNTED, 0, 1, |place| {
            assert!(rt; move_on(place, 0, 5));
            assert!(rt; place.inside().is_none());
            for _ in 0..6 {
                assert!(rt; move_on(place, one, 1));
                assert!(rt; keeps_others_out(place, one, other));
            }
            assert!(rt; move_on(place, one, 1));
            assert!(rt; place.inside().is_none());
            assert!(rt; move_on(place, other, 1));
            assert!(rt; keeps_others_out(place, other, one));
            Ok(())
        })?;
    }
    Ok(())
}

#[test]
fn a_stretch_goes_through_a_region(rt: HostRuntime) -> Result<(), Fail> {
    at_place_of(rt.alloc(), COUNTED, 0, 1, |place| {
        assert!(rt; move_on(place, 0, 5));
        assert!(rt; ran(place, 1, 3) == Some(3));
        assert!(rt; keeps_others_out(place, 1, 2));
        assert!(rt; ran(place, 1, 10) == Some(5));
        assert!(rt; place.inside().is_none());
        assert!(rt; ran(place, 2, 10) == Some(8));
        assert!(rt; ran(place, 0, 10) == Some(5));
        assert!(rt; is_closed(place));
        assert!(rt; matches!(place.output(), [Line::Int(2)]));
        Ok(())
    })
}
