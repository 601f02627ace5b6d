//! The loop of a worker's thread.
ghost use Rattle.std.specs.Prelude.{◌≡◌, ◌≢◌, ◌⊎◌, ◌<◌, ◌≤◌, true, IfErr, IfOk, MatchResult};
ghost use Rattle.x10_kinds.specs.declared.stop.Stop.TheVariants as stop;
ghost use Rattle.x10_workers.specs.declared.halt.Halt.TheVariants as halt;
ghost use Rattle.x10_workers.specs.Causes.{Halts, HaltsFrom, IsEndOf};
ghost use Rattle.x10_workers.specs.Workings.{WorksOn, IsTrailOf};

use crate::gate::Gate;
use crate::halt::{Halt, Halted};
use crate::trail::{Kept, Trail};
use crate::worker::{Went, Worker};
use std::alloc::Global;
use std::sync::Wait;
use x10_hall::{Port, Signal};
use x10_place::Place;
use x10_verify::Verified;

/// Turn after turn, until the run has ended.
fn attend(
    rt: &impl Wait,
    worker: &mut Worker,
    id: u16,
    port: &impl Port,
    gate: &impl Gate,
) -> Result<(), Halt>
    requires { worker.old.place.stopped ≢ true }
    ensures works { IfOk result (λ _. WorksOn worker.old.place worker.old.kept.items
        worker.new.place worker.new.kept.items) }
    ensures halts { IfErr result (Halts worker.old.place) }
{
    for _ in rt.forever() {
        let went = worker.turn(port, gate)?;
        worker.end(port)?;
        if went == Went::On {
            continue;
        }
        worker.post(port)?;
        match port.wait(id) {
            Signal::Frame => {}
            Signal::Finished => return Ok(()),
            Signal::Stopped => return Err(Halt::Ended),
        }
    }
    unreachable!()
}

/// The turns of a place, from its beginning to the end of the run.
fn attend_all(
    rt: &impl Wait,
    alloc: Global,
    verified: &Verified,
    id: u16,
    places: u16,
    port: &impl Port,
    gate: &impl Gate,
) -> Result<Kept, Halted>
    requires within { id < places }
    requires enough { verified.now.program.least_places ≤ places }
    requires few { places ≤ 64 }
    ensures { IsEndOf verified.now places id result }
{
    let place = Place::new(alloc, verified, id, places)?;
    let mut worker = Worker::new(alloc, id, place)?;
    if let Err(why) = attend(rt, &mut worker, id, port, gate) {
        return Err(worker.into_halted(why, port));
    }
    Ok(worker.into_kept(id)?)
}

/// What the worker of a place keeps, at the end; where it can't go on, and only there, it stops the run for all.
pub(crate) fn kept_of<P: Port>(
    rt: &impl Wait,
    alloc: Global,
    verified: &Verified,
    id: u16,
    places: u16,
    port: &mut P,
    gate: &impl Gate,
) -> Result<Kept, Halted>
    requires within { id < places }
    requires enough { verified.now.program.least_places ≤ places }
    requires few { places ≤ 64 }
    ensures end { IsEndOf verified.now places id result }
    ensures stops { MatchResult result (λ _. P.stopped port.new ≡ P.stopped port.old)
        (λ _. P.stopped port.new ≡ true) }
{
    match attend_all(rt, alloc, verified, id, places, port, gate) {
        Ok(kept) => Ok(kept),
        Err(halted) => {
            port.stop();
            Err(halted)
        }
    }
}

/// The work of one place, from its beginning to the end of the run: it takes frames, makes steps and posts its turns through a
/// port, and answers what the place did. A turn takes at most 16 frames and then makes at most 64 steps, of the keys in use by
/// rising number, from the last one used on and round, also of those that begin or come back in it. Activities that find
/// nothing to do are passed over until a frame comes in, an activity ends here, or no other one can move; those that an atomic
/// region keeps out, until it is left. A turn that did nothing isn't posted, and turns that send nothing are posted several at
/// a time, up to 16. Where all keys were tried since something moved, the worker waits. The gate is notified of each turn while
/// no lock is held. Where the worker can't go on, it posts what it did before and stops the run for all; where that isn't posted,
/// the reason for this is returned. Where another worker has stopped the run, it ends at the next turn, and turns that it has
/// still to post are lost. No matter what the port answers, the turns of the trail, with the frames that they took, lead from the
/// place's beginning to its end, as they do in any trail.
pub fn work<'a, P: Port>(
    rt: &impl Wait,
    alloc: Global,
    verified: &'a Verified<'a>,
    id: u16,
    places: u16,
    port: &mut P,
    gate: &impl Gate,
) -> Result<Trail<'a>, Halt>
    requires within { id < places }
    requires enough { verified.now.program.least_places ≤ places }
    requires few { places ≤ 64 }
    ensures trail { IfOk result (IsTrailOf verified.now places id) }
    ensures halts { IfErr result (λ why. (why ≡ halt.Stop stop.Memory)
        ⊎ HaltsFrom verified.now places id why) }
    ensures stops { MatchResult result (λ _. P.stopped port.new ≡ P.stopped port.old)
        (λ _. P.stopped port.new ≡ true) }
{
    match kept_of(rt, alloc, verified, id, places, port, gate) {
        Ok(kept) => Ok(Trail::new(verified, places, kept)),
        Err(halted) => Err(halted.why),
    }
}
