//! Whether one activity alone makes steps, as rounds see it. No clause speaks of it: it saves events that are known to be idle.
ghost use Rattle.std.specs.Prelude.{◌<◌, IfSome};

/// What the steps that were tried last did.
#[derive(Clone, Copy)]
pub(crate) struct Lull {
    /// The activity that moved last, by its place and key.
    mover: Option<(u16, usize)>,
    /// One that was found idle since, and moves no sooner than something else happens.
    waiter: Option<(u16, usize)>,
    /// How many steps were found idle since.
    idle: u64,
    /// How many moves in a row were of another activity than the move before.
    changes: u8,
}

/// After so many moves in a row, each of another activity than the one before, several activities are taken to move.
const SEVERAL: u8 = 4;

impl Lull {
    /// Nothing was seen yet.
    pub fn new() -> Lull {
        Lull {
            mover: None,
            waiter: None,
            idle: 0,
            changes: 0,
        }
    }

    /// Whether several activities move, as far as is known.
    #[inline(always)]
    pub fn has_several(&self) -> bool {
        self.changes >= SEVERAL
    }

    /// Steps of several activities were made, of which so many moved.
    #[inline(always)]
    pub fn swept(&mut self, moved: usize) {
        self.mover = None;
        self.changes = if moved > 1 { SEVERAL } else { 0 };
    }

    /// Something other than a step happened, so that any activity may be able to move.
    #[inline(always)]
    pub fn forget(&mut self) {
        self.mover = None;
        self.changes = 0;
    }

    /// A step of an activity was made, or found idle.
    #[inline(always)]
    pub fn note(&mut self, activity: (u16, usize), moved: bool) {
        if moved {
            if self.mover == Some(activity) {
                self.changes = 0;
            } else if self.mover.is_some() {
                self.changes = self.changes.saturating_add(1);
            }
            self.mover = Some(activity);
            self.waiter = None;
            self.idle = 0;
        } else {
            self.waiter = Some(activity);
            self.idle = self.idle.saturating_add(1);
        }
    }

    /// Where it is the turn of the activity that moved last, and others were found idle since: one of them, and how many
    /// activities these are with itself. Each of them had one turn since: so where this is the number of all activities, all
    /// others are idle, and a round has so many events.
    #[inline(always)]
    pub fn round_of(&self, activity: (u16, usize)) -> Option<((u16, usize), u64)>
        ensures { IfSome result (λ round. 1 < round.1) }
    {
        let waiter = self.waiter?;
        if self.idle == 0 || self.mover != Some(activity) {
            return None;
        }
        Some((waiter, self.idle.saturating_add(1)))
    }
}
