//! Events: steps of activities and deliveries of frames, as a world makes them, and what they did.
ghost use Rattle.std.specs.Prelude.{◌≡◌, ◌≢◌, ◌<◌, ◌≤◌, ◌↔◌, ◌⊎◌, ℕ, true, false, IsTrue, IfOk, IfErr, Ok, Err, Some, None, [], ◌∷◌, take};
ghost use Rattle.x10_kinds.specs.declared.stop.Stop.TheVariants as stop;
ghost use Rattle.x10_model.specs.Worlds as machine;
ghost use Rattle.x10_world.specs.StandsForWorld.{StandsForWorld, KeepsSetting, MakesEvent, IsIdleNow, BeganLast, with_posted, with_sent, GoesBelow, stop_for_refusal};
ghost use Rattle.x10_world.specs.Runs.{IsSameWorld, RunsThrough, StopsAt, Repeats, RepeatsThrough, SentLast, IsHaltedStretch};
ghost use Rattle.x10_world.specs.EventAnswers.{AnswersEvent};
ghost use Rattle.x10_model.specs.declared.event.Event.TheVariants.{Step, Deliver};
ghost use Rattle.x10_world.specs.Happenings.{CanHappen, Happened, IsStood, IsReceiver, HasDone};
ghost use Rattle.x10_world.specs.Prompt.{MayEnd, WorksIn};
ghost use Rattle.x10_model.specs.Places.{IsFree};
ghost use Rattle.x10_finish.specs.Nesting.{stays_of};
ghost use Rattle.x10_place.specs.declared.sent.Outgoing as outgoing;

use crate::done::Done;
use crate::places::noted;
use crate::world::World;
use x10_code::Op;
use x10_copy::Refusal;
use x10_flights::Flights;
use x10_kinds::Stop;
use x10_model::Event;
use x10_place::{Outgoing, Sent, Stepped};

/// Puts a frame out, if there is one.
#[inline(always)]
fn post(flights: &mut Flights, frame: Option<Outgoing>)
    requires { (o : outgoing.Outgoing) → frame ≡ Some o
        → (0 < flights.old.room) × (o.to < flights.old.places) }
    ensures { flights.new ≡ with_posted flights.old frame }
{
    if let Some(frame) = frame {
        flights.post(frame.to, frame.bytes);
    }
}

/// Puts out what a step did.
#[inline(always)]
pub(super) fn post_all(flights: &mut Flights, sent: Sent)
    requires room { flights.old.room ≡ 2 }
    requires there { GoesBelow flights.old.places sent }
    ensures { flights.new ≡ with_sent flights.old sent }
{
    post(flights, sent.message);
    post(flights, sent.report);
}

/// Why a world stops where a frame in flight was refused: at a limit, or else for lack of memory.
fn stop_for(why: Refusal) -> Stop
    ensures { result ≡ stop_for_refusal why }
{
    match why {
        Refusal::Limit(limit) => Stop::Limit(limit),
        _ => Stop::Memory,
    }
}

impl<'a> World<'a> {
    /// One step of the activity with a key at a place, if they are there, and answers whether it moved. Room for two frames, a
    /// message and a report, is made first: so nothing that the place puts out is refused after the place has changed.
    #[inline(always)]
    fn step(&mut self, place: u16, key: usize) -> Result<bool, Stop>
        requires { self.old.stopped ≢ true }
        ensures { AnswersEvent self.old (Step place key) result self.new }
    {
        self.verified.certificate();
        if let Err(why) = self.flights.make_room() {
            self.stopped = true;
            return Err(why);
        }
        if usize::from(place) >= self.places.list.len() {
            return Ok(false);
        }
        let did = self.places.list[usize::from(place)].step(key);
        self.places.living = noted(
            self.places.living,
            place,
            &self.places.list[usize::from(place)],
        );
        match did {
            Ok(Stepped::Idle) => Ok(false),
            Ok(Stepped::Moved(sent)) => {
                post_all(&mut self.flights, sent);
                Ok(true)
            }
            Err(why) => {
                self.stopped = true;
                Err(why)
            }
        }
    }

    /// Takes in the frame in flight with a number where it goes, and answers whether there is one. A frame that is refused is
    /// still in flight.
    #[inline(never)]
    fn deliver(&mut self, number: u64) -> Result<bool, Stop>
        requires { self.old.stopped ≢ true }
        ensures { AnswersEvent self.old (Deliver number) result self.new }
    {
        self.verified.certificate();
        let Some((to, bytes)) = self.flights.get(number) else {
            return Ok(false);
        };
        let did = self.places.list[usize::from(to)].receive(bytes);
        self.places.living = noted(self.places.living, to, &self.places.list[usize::from(to)]);
        match did {
            Ok(()) => {
                self.flights.take(number);
                Ok(true)
            }
            Err(why) => {
                self.stopped = true;
                Err(stop_for(why))
            }
        }
    }

    /// One event, as `run` makes it, and answers whether it did anything.
    #[inline(always)]
    pub fn make_one(&mut self, event: Event) -> Result<bool, Stop>
        requires { self.old.stopped ≢ true }
        ensures told { IfOk result
            (λ moved. Happened self.old.places self.old.flights event moved self.new.places
            self.new.flights) }
        ensures ok { IfOk result
            (λ _. (w : machine.World) → StandsForWorld self.old w
            → MakesEvent self.old w event self.new) }
        ensures made { IfOk result (λ _. (w : machine.World)
            → StandsForWorld self.old w → RunsThrough self.old w (event ∷ []) self.new) }
        ensures acts { IfOk result (λ moved. IsTrue moved ↔ CanHappen self.old event) }
        ensures idle { IfOk result (λ moved. moved ≡ false → IsSameWorld self.old self.new) }
        ensures goes { IfOk result (λ _. self.new.stopped ≢ true) }
        ensures stops { IfErr result (λ why. StopsAt self.old event why self.new) }
        ensures kept { KeepsSetting self.old self.new }
    {
        match event {
            Event::Step(place, key) => self.step(place, key),
            Event::Deliver(number) => self.deliver(number),
        }
    }
}

impl<'a> World<'a> {
    /// The function, the number of the instruction and the operation at which the activity of a step stands.
    fn stood(&self, event: Event) -> Option<(u16, u16, Op)>
        ensures { IsStood self.now.places event result }
    {
        let Event::Step(place, key) = event else {
            return None;
        };
        self.places.list().get(usize::from(place))?.at(key)
    }

    /// The place that a delivery's frame is for, if it is in flight.
    fn receiver(&self, event: Event) -> Option<u16>
        ensures { IsReceiver self.now.flights event result }
    {
        let Event::Deliver(number) = event else {
            return None;
        };
        let (to, _) = self.flights.get(number)?;
        Some(to)
    }

    /// One event, made as `run` makes it, and what it did. After a Stop, which comes as `run` says, the world stands for what
    /// it stood for before.
    pub fn event(&mut self, event: Event) -> Result<Done, Stop>
        ensures ok { IfOk result (λ _. (w : machine.World) → StandsForWorld self.old w
            → MakesEvent self.old w event self.new) }
        ensures done { IfOk result (λ done. HasDone self.old event done self.new) }
        ensures left { IfErr result (λ _. (w : machine.World) → StandsForWorld self.old w
            → StandsForWorld self.new w) }
        ensures stopped { self.old.stopped ≡ true → (result ≡ Err stop.Stopped)
            × (self.new ≡ self.old) }
        ensures goes { IfOk result (λ _. self.new.stopped ≢ true) }
        ensures hindered { self.old.stopped ≢ true → IfErr result
            (λ why. StopsAt self.old event why self.new) }
        ensures stop { IfErr result (λ _. self.new.stopped ≡ true) }
        ensures kept { KeepsSetting self.old self.new }
    {
        self.going()?;
        let stood = self.stood(event);
        let receiver = self.receiver(event);
        let first = self.flights.posted();
        if !self.make_one(event)? {
            return Ok(Done::Idle);
        }
        if let Some(to) = receiver {
            return Ok(Done::Taken { to });
        }
        let Some((function, pc, op)) = stood else {
            return Ok(Done::Idle);
        };
        let count = self.flights.posted() - first;
        Ok(Done::Moved {
            function,
            pc,
            op,
            first,
            count,
        })
    }
}

impl<'a> World<'a> {
    /// Up to `most` times the event `Step(place, key)`: how many were made. Each is as `run` would make it, several times as
    /// fast, and moves. They are fewer than `most` only where a Step of the key now finds nothing to do, or where the last one
    /// began an activity or put out a frame, so that other events may come. It waits at the end of a finish only where
    /// something lives that the finish governs, a frame is in flight, or another activity of the place is inside an atomic
    /// region. After a Stop, which comes as `run` says, the output is that of the steps before the one that was refused.
    pub fn run_activity(&mut self, place: u16, key: usize, most: u64) -> Result<u64, Stop>
        ensures ok { IfOk result (λ n. (w : machine.World) → StandsForWorld self.old w
            → RepeatsThrough self.old w n place key self.new) }
        ensures some { (w : machine.World) → StandsForWorld self.old w
            → (n : ℕ) × (n ≤ most) × Repeats self.old w n place key self.new }
        ensures few { IfOk result (λ n. n ≤ most) }
        ensures all { IfOk result (λ n. n < most → IsIdleNow self.new place key
            ⊎ (BeganLast self.old place key n self.new
            ⊎ SentLast self.old place key n self.new)) }
        ensures waits { IfOk result (λ n. n < most → self.new.flights.flying ≡ []
            → (w : machine.World) (number : ℕ) → StandsForWorld self.new w
            → WorksIn w place key number → IsFree (stays_of w.net place) key
            → MayEnd w (record { home = place; number = number })
            → BeganLast self.old place key n self.new ⊎ SentLast self.old place key n self.new) }
        ensures stopped { self.old.stopped ≡ true → (result ≡ Err stop.Stopped)
            × (self.new ≡ self.old) }
        ensures goes { IfOk result (λ _. self.new.stopped ≢ true) }
        ensures hindered { self.old.stopped ≢ true → IfErr result
            (IsHaltedStretch self.old place key most self.new) }
        ensures stop { IfErr result (λ _. self.new.stopped ≡ true) }
        ensures kept { KeepsSetting self.old self.new }
    {
        self.going()?;
        self.verified.certificate();
        if let Err(why) = self.flights.make_room() {
            self.stopped = true;
            return Err(why);
        }
        if usize::from(place) >= self.places.list.len() {
            return Ok(0);
        }
        let (done, last) = self.places.list[usize::from(place)].run(key, most);
        self.places.living = noted(
            self.places.living,
            place,
            &self.places.list[usize::from(place)],
        );
        match last {
            Ok(sent) => {
                post_all(&mut self.flights, sent);
                Ok(done)
            }
            Err(why) => {
                self.stopped = true;
                Err(why)
            }
        }
    }
}
