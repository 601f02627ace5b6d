//! The hall that the workers of a run share: one lock for all of it, and for each place a signal of its own.

ghost use Rattle.std.specs.Prelude.{◌≡◌, ◌≢◌, ◌↔◌, ◌⊎◌, ◌<◌, IsTrue, IfOk, IfErr, Some, None, length};
ghost use Rattle.x10_hall.specs.declared.turn.Turn.{Turn};
ghost use Rattle.x10_hall.specs.Repetitions.{IsLast};
ghost use Rattle.x10_kinds.specs.declared.stop.Stop.TheVariants as stop;
ghost use Rattle.x10_hall.specs.declared.port.PostFault.TheVariants as fault;
ghost use Rattle.x10_hall.specs.Halls.{empty_hall, with_turn, with_state};
ghost use Rattle.x10_hall.specs.Mails.{refusal, ended, Takes, signal_of, with_turns, turns_of, turns_in, PostsUpTo};

use crate::hall::Hall;
use crate::port::{End, Port, PostFault, Signal, Take};
use crate::state::HallState;
use crate::turn::{Posted, Stint, Turn};
use std::alloc::{AllocError, Global};
use std::sync::atomic::{AtomicBool, Ordering};
use std::sync::{Condvar, Mutex, Wait};
use std::thread;

/// How often a worker that waits looks for a reason to go on, and lets others run, before it sleeps. Waking a thread costs as
/// much as some hundred steps, and the answer to a frame is often there before that.
const LOOKS: u8 = 50;

/// A hall that takes a given number of turns at most.
#[derive(Drop)]
struct Limited {
    hall: Hall,
    most: u64,
}

impl Limited {
    fn open(alloc: Global, places: u16, most: u64) -> Result<Limited, AllocError>
        ensures most { IfOk result (λ limited. limited.most ≡ most) }
        ensures hall { IfOk result (λ limited. limited.hall ≡ empty_hall places) }
    {
        let hall = Hall::new(alloc, places)?;
        Ok(Limited { hall, most })
    }

    /// Appends a turn, even where the run has ended. Where it is refused, nothing changes.
    fn post(&mut self, turn: Turn) -> Result<(), PostFault>
        ensures most { self.new.most ≡ self.old.most }
        ensures ok { IfOk result (λ _. (refusal self.old.most self.old.hall turn ≡ None)
            × (self.new.hall ≡ with_turn self.old.hall turn)) }
        ensures err { IfErr result (λ why. (self.new.hall ≡ self.old.hall)
            × ((refusal self.old.most self.old.hall turn ≡ Some why)
            ⊎ ((refusal self.old.most self.old.hall turn ≡ None)
            × (why ≡ fault.Stop stop.Memory)))) }
    {
        if self.hall.state() == HallState::Stopped {
            return Err(PostFault::Stopped);
        }
        if self.hall.log().len() as u64 >= self.most {
            return Err(PostFault::Turns);
        }
        match self.hall.post(turn) {
            Ok(()) => Ok(()),
            Err(stop) => Err(PostFault::Stop(stop)),
        }
    }

    /// Appends the last turn once more, as `post` appends a turn.
    fn again(&mut self) -> Result<(), PostFault>
        requires { 0 < length self.old.hall.log }
        ensures most { self.new.most ≡ self.old.most }
        ensures ok { IfOk result (λ _. (turn : Turn) → IsLast self.old.hall.log turn
            → (refusal self.old.most self.old.hall turn ≡ None)
            × (self.new.hall ≡ with_turn self.old.hall turn)) }
        ensures err { IfErr result (λ why. (turn : Turn) → IsLast self.old.hall.log turn
            → (self.new.hall ≡ self.old.hall)
            × ((refusal self.old.most self.old.hall turn ≡ Some why)
            ⊎ ((refusal self.old.most self.old.hall turn ≡ None)
            × (why ≡ fault.Stop stop.Memory)))) }
    {
        if self.hall.state() == HallState::Stopped {
            return Err(PostFault::Stopped);
        }
        if self.most <= self.hall.log().len() as u64 {
            return Err(PostFault::Turns);
        }
        match self.hall.again() {
            Ok(()) => Ok(()),
            Err(why) => Err(PostFault::Stop(why)),
        }
    }

    /// Appends a turn so often, up to the first time that is refused.
    fn post_stint(&mut self, stint: Stint) -> Result<(), PostFault>
        ensures most { self.new.most ≡ self.old.most }
        ensures ok { IfOk result (λ _. self.new.hall ≡ with_turns self.old.hall (turns_of stint)) }
        ensures err { IfErr result (PostsUpTo self.old.most self.old.hall (turns_of stint)
            self.new.hall) }
    {
        let Stint { turn, times } = stint;
        if times == 0 {
            return Ok(());
        }
        self.post(turn)?;
        for _ in 1..times {
            self.again()?;
        }
        Ok(())
    }

    /// Appends turns, one after another, up to the first that is refused.
    fn post_all(&mut self, stints: Vec<Stint>) -> Result<(), PostFault>
        ensures most { self.new.most ≡ self.old.most }
        ensures ok { IfOk result (λ _. self.new.hall ≡ with_turns self.old.hall
            (turns_in stints.items)) }
        ensures err { IfErr result (PostsUpTo self.old.most self.old.hall (turns_in stints.items)
            self.new.hall) }
    {
        for stint in stints {
            self.post_stint(stint)?;
        }
        Ok(())
    }

    /// Ends the run, and answers whether that changes something. A run that was stopped stays stopped.
    fn end(&mut self, how: End) -> bool
        ensures most { self.new.most ≡ self.old.most }
        ensures hall { self.new.hall ≡ with_state self.old.hall (ended how self.old.hall.state) }
        ensures changed { IsTrue result ↔ (self.new.hall.state ≢ self.old.hall.state) }
    {
        let before = self.hall.state();
        match how {
            End::Finished => self.hall.finish(),
            End::Stopped => self.hall.stop(),
        }
        self.hall.state() != before
    }

    /// The next frame for a place, unless the run was stopped.
    fn take(&mut self, place: u16) -> Take
        ensures most { self.new.most ≡ self.old.most }
        ensures hall { Takes self.old.hall place result self.new.hall }
    {
        if self.hall.state() == HallState::Stopped {
            return Take::Stopped;
        }
        match self.hall.take(place) {
            Some(frame) => Take::Frame(frame),
            None => Take::Nothing,
        }
    }

    /// Why a worker of a place needn't wait, if there is a reason.
    fn signal(&self, place: u16) -> Option<Signal>
        ensures { result ≡ signal_of self.now.hall place }
    {
        let state = self.hall.state();
        if state == HallState::Stopped {
            return Some(Signal::Stopped);
        }
        if self.hall.has_frame(place) {
            return Some(Signal::Frame);
        }
        if state == HallState::Finished {
            return Some(Signal::Finished);
        }
        None
    }
}

/// The places that frames go to, as a set of their numbers' remainders by 64: a bit for each place of a run, which has 64 at most.
#[derive(Clone, Copy)]
struct Receivers {
    bits: u64,
}

impl Receivers {
    /// Those of the frames of some turns.
    fn of(stints: &[Stint]) -> Receivers {
        let mut receivers = Receivers { bits: 0 };
        for stint in stints {
            receivers.add(&stint.turn.frames);
        }
        receivers
    }

    fn add(&mut self, frames: &[Posted]) {
        for frame in frames {
            self.bits |= 1 << (frame.to % 64);
        }
    }

    fn is_empty(self) -> bool {
        self.bits == 0
    }

    /// Whether a frame goes to a place; also where one goes to another place with the same remainder.
    fn has(self, place: usize) -> bool {
        self.bits & (1 << (place % 64)) != 0
    }
}

/// A hall behind a lock, with a signal for each place, so that a turn wakes only the receivers of its frames. Workers are woken
/// after the lock was given back, so that they don't wait for it again.
#[derive(Drop)]
pub struct Mail {
    shared: Mutex<Limited>,
    /// Whether a worker has stopped the run, for those that look without the lock.
    stopped: AtomicBool,
    calls: Vec<Condvar>,
    /// For places that have no row.
    others: Condvar,
}

impl Mail {
    /// A hall for `places` places that takes at most `turns` turns. Takes some words of memory for each place.
    pub fn new(alloc: Global, places: u16, turns: u64) -> Result<Mail, AllocError> {
        let limited = Limited::open(alloc, places, turns)?;
        let mut calls = Vec::with_capacity(alloc, usize::from(places))?;
        for _ in 0..places {
            calls.push(Condvar::new())?;
        }
        Ok(Mail {
            shared: Mutex::new(limited),
            stopped: AtomicBool::new(false),
            calls,
            others: Condvar::new(),
        })
    }

    /// The hall as the workers left it.
    pub fn into_hall(self) -> Hall {
        let Mail { shared, .. } = self;
        let Limited { hall, .. } = shared.into_inner();
        hall
    }

    /// What the workers of a place wait for.
    fn call(&self, place: u16) -> &Condvar {
        match self.calls.get(usize::from(place)) {
            Some(call) => call,
            None => &self.others,
        }
    }

    /// Wakes the receivers of frames.
    fn wake(&self, receivers: Receivers) {
        if receivers.is_empty() {
            return;
        }
        for (place, call) in self.calls.iter().enumerate() {
            if receivers.has(place) {
                call.notify_all();
            }
        }
    }

    /// Wakes all workers.
    fn wake_all(&self) {
        for call in &self.calls {
            call.notify_all();
        }
        self.others.notify_all();
    }
}

/// A worker's port at the mail. The lock is held only within each call, and never while a caller computes.
#[derive(Drop)]
pub struct Desk<'a, R: Wait> {
    rt: &'a R,
    mail: &'a Mail,
    /// Whether its worker has stopped the run.
    stopped: bool,
}

impl<'a, R: Wait> Desk<'a, R> {
    /// A desk for one worker; all workers of a run share the mail.
    pub fn new(rt: &'a R, mail: &'a Mail) -> Desk<'a, R> {
        Desk {
            rt,
            mail,
            stopped: false,
        }
    }
}

impl<R: Wait> Port for Desk<'_, R> {
    ghost stopped = { λ desk. desk.stopped };

    fn take(&self, place: u16) -> Take {
        self.mail.shared.lock(self.rt).take(place)
    }

    fn post(&self, stints: Vec<Stint>) -> Result<(), PostFault> {
        let receivers = Receivers::of(&stints);
        let posted = self.mail.shared.lock(self.rt).post_all(stints);
        self.mail.wake(receivers);
        posted
    }

    fn wait(&self, place: u16) -> Signal {
        for _ in 0..LOOKS {
            if let Some(signal) = self.mail.shared.lock(self.rt).signal(place) {
                return signal;
            }
            thread::yield_now();
        }
        let call = self.mail.call(place);
        let mut shared = self.mail.shared.lock(self.rt);
        for _ in self.rt.forever() {
            if let Some(signal) = shared.signal(place) {
                return signal;
            }
            shared = call.wait(self.rt, shared);
        }
        unreachable!()
    }

    fn is_stopped(&self) -> bool {
        self.stopped || self.mail.stopped.load(Ordering::SeqCst)
    }

    fn finish(&self) {
        let changed = self.mail.shared.lock(self.rt).end(End::Finished);
        if changed {
            self.mail.wake_all();
        }
    }

    fn stop(&mut self) {
        self.stopped = true;
        let changed = self.mail.shared.lock(self.rt).end(End::Stopped);
        self.mail.stopped.store(true, Ordering::SeqCst);
        if changed {
            self.mail.wake_all();
        }
    }
}
