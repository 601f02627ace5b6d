//! What is counted of a run: its events and its activities.
ghost use Rattle.std.specs.Prelude.{◌≡◌, IfOk, OnErr, OnOk};
ghost use Rattle.x10_model.specs.declared.event.Event.{Event};
ghost use Rattle.x10_stats.specs.Counts.{counts_at_first};
ghost use Rattle.x10_stats.specs.Paces.{paced};
ghost use Rattle.x10_stats.specs.Stats.{counted};
ghost use Rattle.x10_stats.specs.Tallies.{noted, ready};

use crate::pace::Pace;
use crate::sight::Sight;
use crate::stats::Stats;
use crate::tally::Tally;
use std::alloc::{AllocError, Global};
use std::marker::Model;
use x10_model::Event;
use x10_verify::Verified;
use x10_world::{Done, World};

/// What is counted of a run so far: its events, its rounds, and its activities by the functions with which they began.
#[derive(Drop)]
pub struct Counts {
    stats: Stats,
    pace: Pace,
    tally: Tally,
}

impl Model for Counts {
    ghost use Rattle.x10_stats.specs.Counts.{CountsState};

    ghost Value = { CountsState };

    ghost view = { λ a. record { stats = a.stats; pace = a.pace; tally = a.tally } };
}

impl Counts {
    /// Before the first event of a world of a module. Linear in the module's functions and the places. Where `kept`, each
    /// activity is kept, so that it is told: that takes 24 bytes for each one.
    pub fn new(
        alloc: Global,
        verified: &Verified,
        world: &World,
        kept: bool,
    ) -> Result<Counts, AllocError>
        ensures { IfOk result (λ counts. counts ≡ counts_at_first verified.now kept world.now) }
    {
        Ok(Counts {
            stats: Stats::new(world),
            pace: Pace::new(),
            tally: Tally::new(alloc, verified, world, kept)?,
        })
    }

    /// The numbers of its events.
    pub fn stats(&self) -> &Stats
        ensures { result.now ≡ self.now.stats }
    {
        &self.stats
    }

    /// How many rounds there were. An event begins one where it doesn't come behind the event before it in the order of rounds:
    /// places rise, and at a place frames are taken in before keys rise.
    pub fn rounds(&self) -> u64
        ensures { result ≡ self.now.pace.rounds }
    {
        self.pace.rounds
    }

    /// Its activities.
    pub(crate) fn tally(&self) -> &Tally
        ensures { result.now ≡ self.now.tally }
    {
        &self.tally
    }

    /// Makes room for what an event may begin.
    pub(crate) fn prepare(&mut self, sight: &Sight) -> Result<(), AllocError>
        ensures ok { OnOk result
            (self.new ≡ record self.old { tally = ready self.old.tally sight.now }) }
        ensures err { OnErr result (self.new ≡ self.old) }
    {
        self.tally.prepare(sight)
    }

    /// With what an event did, from what was seen before it, in the world right after it.
    pub(crate) fn note(&mut self, event: Event, sight: &Sight, world: &World, done: &Done)
        ensures { self.new ≡ record {
          stats = counted self.old.stats world.now done.now;
          pace = paced self.old.pace sight.now.place event;
          tally = noted self.old.tally sight.now world.now done.now;
        } }
    {
        self.stats = self.stats.with(world, done);
        self.pace = self.pace.with(sight.place, event);
        self.tally.note(sight, world, done);
    }
}
