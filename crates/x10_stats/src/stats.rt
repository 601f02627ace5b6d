//! What is counted of a run, event by event.
ghost use Rattle.std.specs.Prelude.{◌≡◌, ◌-◌, length};
ghost use Rattle.x10_flights.specs.Flights.{flight_of};
ghost use Rattle.x10_stats.specs.Stats.{at_first, counted, sum, stays_at, with_bytes, with_flight, with_flights, with_frame, with_type};

use x10_world::{Done, World};

/// Frames of one type: how many were put out, and their bytes.
#[derive(Clone, Copy, Debug, PartialEq, Eq)]
pub struct Volume {
    pub frames: u64,
    pub bytes: u64,
}

impl Volume {
    /// None yet.
    fn new() -> Volume
        ensures { result ≡ record { frames = 0; bytes = 0 } }
    {
        Volume {
            frames: 0,
            bytes: 0,
        }
    }

    /// With one more frame, of so many bytes.
    fn with(self, bytes: usize) -> Volume
        ensures { result ≡ with_bytes self bytes }
    {
        Volume {
            frames: self.frames.saturating_add(1),
            bytes: self.bytes.saturating_add(bytes as u64),
        }
    }
}

/// What was in a run so far. A number that would pass 2^64 - 1 stays there.
#[derive(Clone, Copy, Debug, PartialEq, Eq)]
pub struct Stats {
    /// Steps that moved an activity.
    pub steps: u64,
    /// Events that found nothing to do.
    pub idle: u64,
    /// Frames that were taken in.
    pub deliveries: u64,
    /// The most stays that there were at one time, at all places.
    pub stays: u64,
    /// Frames that were put out, by their type.
    pub spawns: Volume,
    pub shifts: Volume,
    pub backs: Volume,
    pub reports: Volume,
}

impl Stats {
    /// Before the first event in a world.
    pub fn new(world: &World) -> Stats
        ensures { result ≡ at_first world.now }
    {
        Stats {
            steps: 0,
            idle: 0,
            deliveries: 0,
            stays: stays_in(world),
            spawns: Volume::new(),
            shifts: Volume::new(),
            backs: Volume::new(),
            reports: Volume::new(),
        }
    }

    /// With what an event did, in the world right after it. Linear in the places, of which there are at most 64, and
    /// logarithmic in the frames in flight; constant time where it did nothing. Takes no memory.
    pub fn with(self, world: &World, done: &Done) -> Stats
        ensures { result ≡ counted self world.now done.now }
    {
        let mut stats = self;
        match *done {
            Done::Idle => {
                stats.idle = stats.idle.saturating_add(1);
                return stats;
            }
            Done::Taken { .. } => stats.deliveries = stats.deliveries.saturating_add(1),
            Done::Moved { first, .. } => {
                stats = with_frames_from(stats, world, first);
                stats.steps = stats.steps.saturating_add(1);
            }
        }
        stats.stays = stats.stays.max(stays_in(world));
        stats
    }

    /// With a frame that has these bytes, by its type, which is its second byte.
    fn with_frame(self, bytes: &[u8]) -> Stats
        ensures { result ≡ with_frame self bytes.now }
    {
        match bytes.get(1) {
            Some(kind) => self.with_type(*kind, bytes.len()),
            None => self,
        }
    }

    /// With a frame of a type, of so many bytes.
    fn with_type(self, kind: u8, bytes: usize) -> Stats
        ensures { result ≡ with_type self kind bytes }
    {
        let mut stats = self;
        match kind {
            1 => stats.spawns = stats.spawns.with(bytes),
            2 => stats.shifts = stats.shifts.with(bytes),
            3 => stats.backs = stats.backs.with(bytes),
            4 => stats.reports = stats.reports.with(bytes),
            _ => {}
        }
        stats
    }
}

/// With the frames in flight that are numbered from `first` on.
fn with_frames_from(stats: Stats, world: &World, first: u64) -> Stats
    ensures { result ≡ with_flights world.now.flights first
        (world.now.flights.posted - first) stats }
{
    let mut all = stats;
    for number in first..world.posted() {
        all = with_number(all, world, number);
    }
    all
}

/// With the frame in flight with a number, if there is one.
fn with_number(stats: Stats, world: &World, number: u64) -> Stats
    ensures { result ≡ with_flight stats (flight_of world.now.flights number) }
{
    match world.frame(number) {
        Some((_, bytes)) => stats.with_frame(bytes),
        None => stats,
    }
}

/// How many stays there are at all places.
fn stays_in(world: &World) -> u64
    ensures { result ≡ stays_at world.now.places (length world.now.places) }
{
    let mut stays = 0u64;
    for place in 0..world.count() {
        stays = stays.saturating_add(world.live(place) as u64);
    }
    stays
}
