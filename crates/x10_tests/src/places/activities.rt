//! Many activities at one place under ten thousand random events, next to a plain count of what each of them does.
use super::calls::at_place_of;
use std::alloc::{AllocError, Global};
use std::process::Abort;
use std::test::*;
use x10_place::{Place, Stepped};
use x10_samples::random;

/// Main starts 400 branches in a finish, and one more that outlives it. A branch starts two leaves in a finish of its
/// own, waits for them, and starts one more that it doesn't wait for. A leaf prints.
const BRANCHES: &str = "places 1
int 1
func 1 0 none
INTK 0 0
PRINT 0
RET 0
end
func 1 0 none
FINB
ASYNC 0 0
ASYNC 0 0
FINE
ASYNC 0 0
RET 0
end
func 1 1 none
FINB
LOOP 0 400
again:
ASYNC 0 1
ENDL 0 @again
FINE
ASYNC 0 1
RET 0
end
entry 2
";

#[derive(Clone, Copy, PartialEq, Eq)]
enum Kind {
    Leaf,
    Branch,
    Main,
}

/// What an activity does next.
#[derive(Clone, Copy, PartialEq, Eq)]
enum Act {
    Goes,
    Prints,
    Opens,
    Starts(Kind),
    Closes,
    Ends,
}

/// An activity: how many steps it has made, the finish that governs it, and the one that it has opened last.
#[derive(Clone, Copy)]
struct Activity {
    kind: Kind,
    made: u32,
    under: usize,
    own: usize,
}

impl Activity {
    fn new(kind: Kind, under: usize) -> Activity {
        Activity {
            kind,
            made: 0,
            under,
            own: under,
        }
    }

    fn act(&self) -> Act {
        match (self.kind, self.made) {
            (Kind::Leaf, 0) => Act::Goes,
            (Kind::Leaf, 1) => Act::Prints,
            (Kind::Branch | Kind::Main, 0) => Act::Opens,
            (Kind::Branch, 1 | 2 | 4) => Act::Starts(Kind::Leaf),
            (Kind::Branch, 3) | (Kind::Main, 802) => Act::Closes,
            (Kind::Main, 803) => Act::Starts(Kind::Branch),
            (Kind::Main, 1) => Act::Goes,
            (Kind::Main, n) if n < 802 && n % 2 == 0 => Act::Starts(Kind::Branch),
            (Kind::Main, n) if n < 802 => Act::Goes,
            _ => Act::Ends,
        }
    }
}

/// What is counted plainly: the activities by key, how many live under each finish, and how many lines there are.
#[derive(Drop)]
struct Plain {
    activities: Vec<Option<Activity>>,
    live: Vec<u32>,
    lines: usize,
}

impl Plain {
    fn live(&self, finish: usize) -> u32 {
        self.live.get(finish).copied().unwrap_or(0)
    }

    fn at(&self, key: usize) -> Option<Activity> {
        *self.activities.get(key)?
    }

    /// Whether a step of this key finds nothing to do.
    fn idles(&self, key: usize) -> bool {
        match self.at(key) {
            Some(activity) => activity.act() == Act::Closes && self.live(activity.own) > 0,
            None => true,
        }
    }

    fn put(&mut self, key: usize, activity: Option<Activity>) {
        if let Some(slot) = self.activities.get_mut(key) {
            *slot = activity;
        }
    }

    fn begin(&mut self, key: usize, activity: Activity) {
        self.put(key, Some(activity));
        if let Some(live) = self.live.get_mut(activity.under) {
            *live = live.saturating_add(1);
        }
    }

    fn end(&mut self, key: usize, under: usize) {
        self.put(key, None);
        if let Some(live) = self.live.get_mut(under) {
            *live = live.saturating_sub(1);
        }
    }

    /// The least key that the place uses and the count doesn't.
    fn new_key(&self, place: &Place) -> Option<usize> {
        (0..self.activities.len()).find(|key| self.at(*key).is_none() && place.at(*key).is_some())
    }

    /// What the activity with this key did.
    fn does(&mut self, rt: &impl Abort, place: &Place, key: usize) -> Result<(), Fail> {
        let mut activity = self.at(key).ok_or("it moved")?;
        let act = activity.act();
        activity.made = activity.made.saturating_add(1);
        match act {
            Act::Goes => {}
            Act::Prints => self.lines = self.lines.saturating_add(1),
            Act::Opens => {
                activity.own = self.live.len();
                self.live.push(0)?;
            }
            Act::Starts(kind) => {
                let new = self.new_key(place).ok_or("it has begun")?;
                self.begin(new, Activity::new(kind, activity.own));
            }
            Act::Closes => activity.own = activity.under,
            Act::Ends => {
                assert!(rt; place.at(key).is_none());
                self.end(key, activity.under);
                return Ok(());
            }
        }
        self.put(key, Some(activity));
        Ok(())
    }

    /// Whether place and count have as many lines, and agree on this key and on the end of the run.
    fn agrees(&self, place: &Place, key: usize) -> bool {
        place.output().len() == self.lines
            && place.closed() == (self.live(0) == 0)
            && place.at(key).is_some() == self.at(key).is_some()
    }

    /// A step of this key, at the place and in the count.
    fn step(&mut self, rt: &impl Abort, place: &mut Place, key: usize) -> Result<(), Fail> {
        let idles = self.idles(key);
        match place.step(key) {
            Ok(Stepped::Idle) => assert!(rt; idles),
            Ok(Stepped::Moved(_)) => {
                assert!(rt; !idles);
                self.does(rt, place, key)?;
            }
            Err(_) => return Err("there is memory".into()),
        }
        assert!(rt; self.agrees(place, key));
        Ok(())
    }
}

/// The count at the beginning: main alone, with room for 2,000 keys.
fn counted(alloc: Global) -> Result<Plain, AllocError> {
    let mut plain = Plain {
        activities: Vec::new(alloc),
        live: Vec::new(alloc),
        lines: 0,
    };
    for _ in 0..2_000u32 {
        plain.activities.push(None)?;
    }
    plain.live.push(0)?;
    plain.begin(0, Activity::new(Kind::Main, 0));
    Ok(plain)
}

/// Ten thousand steps of keys by chance.
fn random_steps(rt: &impl Abort, plain: &mut Plain, place: &mut Place) -> Result<(), Fail> {
    let mut seed = 1;
    for _ in 0..10_000u32 {
        let most = random(&mut seed) % 64;
        let key = random(&mut seed) % (most + 1);
        plain.step(rt, place, key)?;
    }
    Ok(())
}

/// Whether a key is in use.
fn is_used(place: &Place, key: usize) -> bool {
    place.at(key).is_some()
}

/// A step of each key that is in use.
fn one_round(rt: &impl Abort, plain: &mut Plain, place: &mut Place) -> Result<(), Fail> {
    for key in 0..2_000usize {
        if is_used(place, key) {
            plain.step(rt, place, key)?;
        }
    }
    Ok(())
}

/// The run ends after at most 1,000 rounds.
fn goes_to_its_end(rt: &impl Abort, plain: &mut Plain, place: &mut Place) -> Result<(), Fail> {
    for _ in 0..1_000u32 {
        one_round(rt, plain, place)?;
    }
    assert!(rt; place.closed() && plain.lines == 1_203);
    Ok(())
}

/// The random steps, which don't end the run, and then the rest of it.
fn goes(alloc: Global, rt: &impl Abort, place: &mut Place) -> Result<(), Fail> {
    let mut plain = counted(alloc)?;
    random_steps(rt, &mut plain, place)?;
    assert!(rt;
        plain.lines > 500 && !place.closed(),
        "{} lines",
        plain.lines
    );
    goes_to_its_end(rt, &mut plain, place)
}

#[test]
fn ten_thousand_events(rt: HostRuntime) -> Result<(), Fail> {
    at_place_of(
        rt.alloc(),
        BRANCHES,
        0,
        1,
        |place| goes(rt.alloc(), &rt, place),
    )
}
