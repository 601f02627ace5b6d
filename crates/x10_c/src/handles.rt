//! What the calls with handles answer.
ghost use Rattle.std.specs.Prelude.{◌≡◌};
ghost use Rattle.x10_c.specs.Handles.{opening_status, receive_status, receive_told, refusal_numbers, refusal_status, step_status, step_told, stop_numbers};

use crate::kinds::kind_of_frame;
use crate::numbers::{FaultNumbers, counted, none, plain};
use x10_copy::Refusal;
use x10_handles::Unopened;
use x10_kinds::Stop;

/// The status where a handle is closed, or is another sort of handle.
pub const CLOSED: u32 = 7;
/// The status where a handle is to be opened that is open.
pub const IN_USE: u32 = 8;
/// The status where there is nothing of what was asked for.
pub const NOTHING: u32 = 9;

/// The status of a call that opens a place or a world.
pub fn of_opening(opened: Result<(), Unopened>) -> u32
    ensures { result ≡ opening_status opened }
{
    match opened {
        Ok(()) => 0,
        Err(Unopened::Places) => 1,
        Err(Unopened::Memory) => 2,
        Err(Unopened::NoModule) => CLOSED,
        Err(Unopened::InUse) => IN_USE,
    }
}

fn numbers_of_stop(why: Stop) -> FaultNumbers
    ensures { result ≡ stop_numbers why }
{
    match why {
        Stop::Memory => plain(602),
        Stop::Limit(limit) => counted(603, u64::from(limit.number())),
        Stop::Stopped => plain(921),
    }
}

/// Tells what came of a step or a delivery, and its status.
pub fn tell_step(stepped: Result<bool, Stop>, told: &mut FaultNumbers) -> u32
    ensures status { result ≡ step_status stepped }
    ensures told { told.new ≡ step_told stepped }
{
    *told = none();
    match stepped {
        Ok(true) => 0,
        Ok(false) => NOTHING,
        Err(why) => {
            *told = numbers_of_stop(why);
            2
        }
    }
}

fn numbers_of_refusal(why: Refusal) -> FaultNumbers
    ensures { result ≡ refusal_numbers why }
{
    match why {
        Refusal::Frame(fault) => plain(kind_of_frame(fault)),
        Refusal::NotHere => plain(911),
        Refusal::Function => plain(912),
        Refusal::Kind => plain(913),
        Refusal::Home => plain(914),
        Refusal::Ref => plain(915),
        Refusal::Finish => plain(916),
        Refusal::Segment => plain(917),
        Refusal::Memory => plain(602),
        Refusal::Limit(limit) => counted(603, u64::from(limit.number())),
        Refusal::Stopped => plain(921),
    }
}

fn status_of_refusal(why: Refusal) -> u32
    ensures { result ≡ refusal_status why }
{
    match why {
        Refusal::Memory => 2,
        Refusal::Limit(_) => 2,
        Refusal::Stopped => 2,
        _ => 1,
    }
}

/// Tells what came of bytes, and its status.
pub fn tell_receive(received: Result<(), Refusal>, told: &mut FaultNumbers) -> u32
    ensures status { result ≡ receive_status received }
    ensures told { told.new ≡ receive_told received }
{
    match received {
        Ok(()) => {
            *told = none();
            0
        }
        Err(why) => {
            *told = numbers_of_refusal(why);
            status_of_refusal(why)
        }
    }
}
