//! What a worker keeps of its place.
ghost use Rattle.std.specs.Prelude.{◌≡◌};
ghost use Rattle.x10_verify.specs.Certified.{IsCertified};
ghost use Rattle.x10_workers.specs.Trails.{IsTrail, trail_of};

use std::marker::Model;
use x10_hall::{Keys, Posted, Repeats, Taken};
use x10_place::Line;
use x10_verify::Verified;

/// One turn of a place, as its worker keeps it: like the turn in the log, with the bytes of the frames that were taken in.
#[derive(Drop)]
pub struct OwnTurn {
    /// The frames that were taken in, in this order.
    pub taken: Vec<Taken>,
    /// The key of each step, in this order, including the steps that found nothing to do.
    pub keys: Keys,
    /// The frames that were put out, in this order.
    pub frames: Vec<Posted>,
    /// The lines that were printed, in this order.
    pub lines: Vec<Line>,
}

/// What the worker of a place keeps until its run has ended.
#[derive(Drop)]
pub(crate) struct Kept {
    /// The number of the place.
    pub(crate) id: u16,
    /// Its turns, first to last.
    pub(crate) turns: Repeats<OwnTurn>,
    /// All lines that it printed.
    pub(crate) lines: Vec<Line>,
    /// Whether the root finish may end, as this place knows it; only place 0 does.
    pub(crate) closed: bool,
}

/// What a place did from its beginning to the end of a run. The turns of each trail that there is lead from the one to the other.
#[derive(Drop)]
pub struct Trail<'a> {
    verified: &'a Verified<'a>,
    places: u16,
    kept: Kept,
}

impl<'a> Model for Trail<'a> {
    ghost use Rattle.x10_workers.specs.Trails.{TrailState, IsTrail, trail_of};

    ghost Value = { TrailState };

    ghost view = { λ t. trail_of t.verified.now t.places t.kept };

    ghost invariant = { λ t. IsTrail (trail_of t.verified.now t.places t.kept) };
}

impl<'a> Trail<'a> {
    /// The trail of a place of a run of a module at `places` places.
    pub(crate) fn new(verified: &'a Verified<'a>, places: u16, kept: Kept) -> Trail<'a>
        requires { IsTrail (trail_of verified.now places kept) }
        ensures { result ≡ trail_of verified.now places kept }
    {
        Trail {
            verified,
            places,
            kept,
        }
    }

    /// Its turns lead from the beginning of its place to its end, and its module is one that the verifier accepts.
    pub(crate) fn assure(&self)
        ensures trail { IsTrail self.now }
        ensures certified { IsCertified self.now.certified }
    {
        let verified = self.verified;
        verified.certificate();
    }

    /// The number of its place.
    pub fn id(&self) -> u16
        ensures { result ≡ self.now.id }
    {
        self.kept.id
    }

    /// How many places the run has.
    pub fn places(&self) -> u16
        ensures { result ≡ self.now.places }
    {
        self.places
    }

    /// The turns of the place, first to last.
    pub fn turns(&self) -> &Repeats<OwnTurn>
        ensures { result.now.items ≡ self.now.turns }
    {
        &self.kept.turns
    }

    /// All lines that it printed.
    pub fn lines(&self) -> &[Line]
        ensures { result.now ≡ self.now.lines }
    {
        &self.kept.lines
    }

    /// Whether the root finish may end, as this place knows it; only place 0 does.
    pub fn is_closed(&self) -> bool
        ensures { result ≡ self.now.closed }
    {
        self.kept.closed
    }
}
