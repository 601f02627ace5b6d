//! Faults as plain numbers, for programs that aren't Rattle.
ghost use Rattle.std.specs.Prelude.{◌≡◌};
ghost use Rattle.x10_cli.specs.declared.fault.Fault.TheVariants as fault;
ghost use Rattle.x10_c.specs.Numbers.{fault_of, no_fault, numbers_of, other_of};

use crate::kinds::{
    asm_of_kind, frame_of_kind, image_of_kind, kind_of_asm, kind_of_frame, kind_of_image,
    kind_of_log, kind_of_structure, kind_of_verify, limit_of_number, verify_of_kind,
};
use x10_asm::AsmFault;
use x10_cli::Fault;
use x10_image::ImageFault;
use x10_log::{LogCause, LogFault};
use x10_verify::VerifyFault;

/// A fault as numbers, `burjeeg_fault` in C. Those that a kind doesn't have are 0.
#[repr(C)]
#[derive(Clone, Copy, Debug, PartialEq, Eq, Drop)]
pub struct FaultNumbers {
    /// Which fault, by its part in hundreds: 1 a text's, 2 an image's, 3 and 4 the verifier's, 5 a number of places, 6 what
    /// stopped the work, 7 the bytes of a text, 8 a log's, 9 those of a frame, and of one that came to a place. 0 is none.
    pub kind: u32,
    /// The number of the function; for a frame that was refused, of the place.
    pub function: u16,
    /// The number of the instruction in it.
    pub pc: u16,
    /// The line of a text or a log, from 1; the number of the limit that would have been passed; or the turn of a log, from 0.
    pub at: u64,
}

/// What stands for no fault.
pub fn none() -> FaultNumbers
    ensures { result ≡ no_fault }
{
    plain(0)
}

pub(crate) fn plain(kind: u32) -> FaultNumbers
    ensures { result ≡ record { kind = kind; function = 0; pc = 0; at = 0 } }
{
    FaultNumbers {
        kind,
        function: 0,
        pc: 0,
        at: 0,
    }
}

pub(crate) fn counted(kind: u32, at: u64) -> FaultNumbers
    ensures { result ≡ record { kind = kind; function = 0; pc = 0; at = at } }
{
    FaultNumbers {
        kind,
        function: 0,
        pc: 0,
        at,
    }
}

fn placed(kind: u32, function: u16, pc: u16) -> FaultNumbers
    ensures { result ≡ record { kind = kind; function = function; pc = pc; at = 0 } }
{
    FaultNumbers {
        kind,
        function,
        pc,
        at: 0,
    }
}

/// The numbers of a fault.
pub fn numbers(fault: Fault) -> FaultNumbers
    ensures { result ≡ numbers_of fault }
{
    match fault {
        Fault::Asm(fault) => counted(kind_of_asm(fault.cause), fault.line as u64),
        Fault::Image(ImageFault::Code(function, pc)) => placed(210, function, pc),
        Fault::Image(fault) => plain(kind_of_image(fault)),
        Fault::Verify(fault) => placed(kind_of_verify(fault.cause), fault.function, fault.pc),
        Fault::Bounds(fault) => placed(kind_of_structure(fault.cause), fault.function, fault.pc),
        Fault::Places => plain(501),
        Fault::Memory => plain(601),
        Fault::StopMemory => plain(602),
        Fault::StopLimit(limit) => counted(603, u64::from(limit.number())),
        Fault::Limit => plain(604),
        Fault::Turns => plain(605),
        Fault::Refused(place) => placed(606, place, 0),
        Fault::Differs(turn) => counted(607, turn as u64),
        Fault::Thread => plain(608),
        Fault::File => plain(701),
        Fault::Log(fault) => counted(kind_of_log(fault.cause), fault.line as u64),
        Fault::LogImage => plain(811),
        Fault::LogDiffers(turn) => counted(812, turn as u64),
        Fault::LogOpen => plain(813),
        Fault::Frame(fault) => plain(kind_of_frame(fault)),
    }
}

/// The fault that numbers stand for, or one with the same line.
pub fn fault(told: &FaultNumbers) -> Option<Fault>
    ensures { result ≡ fault_of told.now }
{
    if let Some(cause) = asm_of_kind(told.kind) {
        let line = told.at as usize;
        return Some(Fault::Asm(AsmFault { line, cause }));
    }
    let (function, pc) = (told.function, told.pc);
    if let Some(fault) = image_of_kind(told.kind, function, pc) {
        return Some(Fault::Image(fault));
    }
    if let Some(cause) = verify_of_kind(told.kind) {
        return Some(Fault::Verify(VerifyFault {
            cause,
            function,
            pc,
        }));
    }
    other(told)
}

/// A fault of the text of a log, at its line.
fn in_log(told: &FaultNumbers, cause: LogCause) -> Fault
    ensures { result ≡ fault.Log (record { line = told.now.at; cause = cause }) }
{
    let line = told.at as usize;
    Fault::Log(LogFault { line, cause })
}

/// The same of the kinds from 501 on.
fn other(told: &FaultNumbers) -> Option<Fault>
    ensures { result ≡ other_of told.now }
{
    match told.kind {
        501 => Some(Fault::Places),
        601 => Some(Fault::Memory),
        602 => Some(Fault::StopMemory),
        603 => limit_of_number(told.at).map(Fault::StopLimit),
        604 => Some(Fault::Limit),
        605 => Some(Fault::Turns),
        606 => Some(Fault::Refused(told.function)),
        607 => Some(Fault::Differs(told.at as usize)),
        608 => Some(Fault::Thread),
        701 => Some(Fault::File),
        811 => Some(Fault::LogImage),
        812 => Some(Fault::LogDiffers(told.at as usize)),
        813 => Some(Fault::LogOpen),
        801 => Some(in_log(told, LogCause::Head)),
        802 => Some(in_log(told, LogCause::Place)),
        803 => Some(in_log(told, LogCause::Taken)),
        804 => Some(in_log(told, LogCause::Key)),
        805 => Some(in_log(told, LogCause::Frame)),
        806 => Some(in_log(told, LogCause::Printed)),
        807 => Some(in_log(told, LogCause::Count)),
        808 => Some(in_log(told, LogCause::Spelling)),
        809 => Some(in_log(told, LogCause::Ending)),
        810 => Some(in_log(told, LogCause::Memory)),
        kind => frame_of_kind(kind).map(Fault::Frame),
    }
}
