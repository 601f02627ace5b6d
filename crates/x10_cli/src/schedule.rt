//! Which schedule a task asks for.
ghost use Rattle.std.specs.Prelude.{◌≡◌};
ghost use Rattle.x10_cli.specs.Schedules.{scheduled};

use x10_schedule::Schedule;
use x10_task::Task;

/// The schedule that a task asks for.
pub(crate) fn schedule_of(task: &Task) -> Schedule
    ensures { result ≡ scheduled task.now.schedule task.now.seed }
{
    match task.schedule {
        x10_task::Schedule::Rounds => Schedule::Rounds,
        x10_task::Schedule::Random => Schedule::Random(task.seed.unwrap_or(0)),
        x10_task::Schedule::Oldest => Schedule::Oldest,
        x10_task::Schedule::Newest => Schedule::Newest,
    }
}
