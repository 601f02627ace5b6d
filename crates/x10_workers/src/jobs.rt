//! Jobs, each in a thread of its own.
ghost use Rattle.std.specs.Prelude.{◌≡◌, ℕ, ◌<◌, IfErr, IfOk, Some, Result, length, slice_get, vec_len};
ghost use Rattle.x10_workers.specs.declared.halt.Halted as halted;
ghost use Rattle.x10_workers.specs.declared.trail.Kept as kept;
ghost use Rattle.x10_workers.specs.Reports.{IsOfRun};

use crate::halt::Halted;
use crate::trail::Kept;
use std::alloc::{AllocError, Global};
use std::sync::Wait;
use std::thread;
use std::thread::{Promise, Threads};

/// Why the workers did not end well.
#[derive(Drop)]
pub(crate) enum Failure {
    /// The worker of a place stopped, by itself.
    Worker(u16, Halted),
    /// Memory for the threads' handles, or for what they hand over, was refused.
    Memory,
    /// A worker could not be started.
    Thread,
}

impl From<AllocError> for Failure {
    ghost from_gives = { λ _ failure. failure ≡ Memory };

    ghost use Rattle.x10_workers.specs.declared.jobs.Failure.TheVariants.{Memory};

    fn from(_error: AllocError) -> Failure {
        Failure::Memory
    }
}

/// What the workers of a run do, each given the number of its place. It is a trait, since a closure that holds a reference
/// to something that borrows, as a `Verified` borrows an image, tells the prover nothing about its result; a closure over a
/// type parameter does.
pub(crate) trait Job {
    ghost use Rattle.std.specs.Prelude.{ℕ, Result};
    ghost use Rattle.x10_workers.specs.declared.halt.Halted.{Halted};
    ghost use Rattle.x10_workers.specs.declared.trail.Kept.{Kept};

    ghost asks: { Self → ℕ → Type 0 };

    ghost gives: { Self → ℕ → Result Kept Halted → Type 0 };

    /// The work of one place.
    fn make(&self, id: u16) -> Result<Kept, Halted>
        requires { Self.asks self.now id }
        ensures { Self.gives self.now id result };

    /// Stops the work of all places.
    fn stop(&self);
}

/// What a thread promises: what the work of its place gives. That is a `Kept` and no `Trail`: a promise of trails would name
/// a lifetime, and a check of each trail after the join can't tell whether two are of one module.
#[derive(Drop)]
struct Given<'j, J: Job> {
    job: &'j J,
    id: u16,
}

impl<'j, J: Job> Promise<Result<Kept, Halted>> for Given<'j, J> {
    ghost kept_by = { λ p end. J.gives p.job.now p.id end };
}

/// Stops all work, after a failure.
fn stopped(job: &impl Job, failure: Failure) -> Failure
    ensures { result ≡ failure }
{
    job.stop();
    failure
}

/// Does the work of `count` places, each in a thread of its own, and waits for all of them. Answers how each ended.
pub(crate) fn make_all<R: Threads + Wait + Sync, J: Job + Sync>(
    rt: &R,
    alloc: Global,
    count: u16,
    job: &J,
) -> Result<Vec<Result<Kept, Halted>>, Failure>
    requires { (id : ℕ) → id < count → J.asks job.now id }
    ensures count { IfOk result (λ ends. length ends.items ≡ count) }
    ensures each { IfOk result (λ ends. (id : ℕ) (end : Result kept.Kept halted.Halted)
        → slice_get ends.items id ≡ Some end → J.gives job.now id end) }
    ensures failure { IfErr result IsOfRun }
{
    let mut handles = Vec::with_capacity(alloc, usize::from(count))?;
    thread::scope(
        thread::scope_env(),
        rt,
        move |scope| -> Result<Vec<Result<Kept, Halted>>, Failure>
            requires { ((id : ℕ) → id < count → J.asks job.now id) × (vec_len handles ≡ 0) }
            ensures count { IfOk result (λ ends. length ends.items ≡ count) }
            ensures each { IfOk result (λ ends. (id : ℕ) (end : Result kept.Kept halted.Halted)
                → slice_get ends.items id ≡ Some end → J.gives job.entry.now id end) }
            ensures failure { IfErr result IsOfRun }
        {
            for id in 0..count {
                let started = scope.spawn_with(
                    Given { job, id },
                    move || -> Result<Kept, Halted>
                        requires { J.asks job.now id }
                        ensures { J.gives job.entry.now id result }
                    { job.make(id) },
                );
                let Ok(handle) = started else {
                    return Err(stopped(job, Failure::Thread));
                };
                let Ok(()) = handles.push(handle) else {
                    return Err(stopped(job, Failure::Memory));
                };
            }
            let Ok(ends) = thread::join_promised(rt, handles) else {
                return Err(stopped(job, Failure::Memory));
            };
            Ok(ends)
        },
    )
}
