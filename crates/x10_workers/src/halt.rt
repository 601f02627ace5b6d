//! Why a worker, or a run with threads, did not end well.
ghost use Rattle.std.specs.Prelude.{◌≡◌};
ghost use Rattle.x10_kinds.specs.declared.stop.Stop.TheVariants as stop;
ghost use Rattle.x10_workers.specs.declared.halt.Halt.TheVariants as halt;
ghost use Rattle.x10_workers.specs.Halts.{halt_of_fault, halt_of_refusal};

use crate::report::RunReport;
use std::alloc::AllocError;
use thiserror::Error;
use x10_copy::Refusal;
use x10_hall::{Keys, PostFault};
use x10_kinds::Stop;

/// Why a worker stopped before the run had ended.
#[derive(Clone, Copy, Debug, PartialEq, Eq, Error)]
pub enum Halt {
    /// Memory was refused, or a limit of its place was met.
    #[error("Stop")]
    Stop(Stop),
    /// As many turns as were asked for have been posted.
    #[error("Turns")]
    Turns,
    /// Its place refused a frame that was posted to it.
    #[error("Refused")]
    Refused(Refusal),
    /// Another worker had stopped the run.
    #[error("Ended")]
    Ended,
}

/// A turn that a worker has begun and not ended.
#[derive(Drop)]
pub(crate) struct Begun {
    /// The numbers of the frames that were taken, also of one that was refused.
    pub(crate) taken: Vec<u64>,
    /// Where a step was refused, the keys of the steps up to this one. Those of steps that were to follow may stand behind them.
    pub(crate) keys: Keys,
}

/// How a worker stopped.
#[derive(Drop)]
pub(crate) struct Halted {
    pub(crate) why: Halt,
    /// The turn in which it stopped, if all before it were posted.
    pub(crate) begun: Option<Begun>,
}

impl From<Stop> for Halted {
    ghost from_gives = { λ why made. made.why ≡ halt.Stop why };

    fn from(why: Stop) -> Halted {
        Halted {
            why: Halt::Stop(why),
            begun: None,
        }
    }
}

impl From<AllocError> for Halted {
    ghost from_gives = { λ _ made. made.why ≡ halt.Stop stop.Memory };

    fn from(_error: AllocError) -> Halted {
        Halted::from(Stop::Memory)
    }
}

impl From<Stop> for Halt {
    ghost from_gives = { λ why made. made ≡ halt.Stop why };

    fn from(why: Stop) -> Halt {
        Halt::Stop(why)
    }
}

impl From<AllocError> for Halt {
    ghost from_gives = { λ _ made. made ≡ halt.Stop stop.Memory };

    fn from(_error: AllocError) -> Halt {
        Halt::Stop(Stop::Memory)
    }
}

impl From<PostFault> for Halt {
    ghost from_gives = { λ why made. made ≡ halt_of_fault why };

    fn from(why: PostFault) -> Halt {
        match why {
            PostFault::Stopped => Halt::Ended,
            PostFault::Turns => Halt::Turns,
            PostFault::Stop(stop) => Halt::Stop(stop),
        }
    }
}

impl From<Refusal> for Halt {
    ghost from_gives = { λ why made. made ≡ halt_of_refusal why };

    fn from(why: Refusal) -> Halt {
        match why {
            Refusal::Memory => Halt::Stop(Stop::Memory),
            Refusal::Limit(limit) => Halt::Stop(Stop::Limit(limit)),
            Refusal::Stopped => Halt::Stop(Stop::Stopped),
            _ => Halt::Refused(why),
        }
    }
}

/// Why a run with threads has no report of its end.
#[derive(Drop)]
pub enum WorkFault {
    /// The worker of a place stopped, for lack of memory or at a limit. The report has the turns that were posted.
    Stop(u16, Stop, RunReport),
    /// As many turns were posted as were asked for.
    Turns(RunReport),
    /// A place refused a frame that was posted to it. `run_threads` never returns this: such a run is one whose log differs.
    Refused(u16, Refusal),
    /// This turn of the log isn't what the worker of its place did. The number of all turns where none differs, but a worker made
    /// another one, some activity may be left, or a place stopped at a limit or refused a frame, and the log shows no cause.
    Differs(usize),
    /// Memory was refused outside a turn.
    Memory,
    /// The module does not run at the given number of places.
    Places,
    /// A worker could not be started.
    Thread,
}

impl From<AllocError> for WorkFault {
    ghost from_gives = { λ _ fault. fault ≡ Memory };

    ghost use Rattle.x10_workers.specs.declared.halt.WorkFault.TheVariants.{Memory};

    fn from(_error: AllocError) -> WorkFault {
        WorkFault::Memory
    }
}
