ghost use Rattle.std.specs.Prelude.{true, false, ◌≡◌, Some};
ghost use Rattle.std.specs.Fmt.{DisplaysOnOk};
ghost use Rattle.x10_cli.specs.Telling.{fault_text, frame_word, log_word};
ghost use Rattle.x10_cli.specs.declared.fault.Fault.TheVariants as fault;
ghost use Rattle.x10_cli.specs.Answers.{status_of, of_asm, of_image, of_verify, of_bounds, of_open, of_frame, of_stop, of_log, of_audit, of_halt, of_work};

use std::alloc::{AllocError, AllocFailed};
use std::{fmt, io};
use x10_asm::{AsmCause, AsmFault};
use x10_bounds::{BoundCause, BoundFault};
use x10_explain::{asm_name, image_name, verify_name};
use x10_frame::FrameFault;
use x10_image::ImageFault;
use x10_kinds::{Limit, Stop};
use x10_log::{LogCause, LogFault};
use x10_verify::{VerifyCause, VerifyFault};
use x10_workers::{AuditFault, WorkFault};
use x10_world::{OpenFault, Unfinished};

/// Why a command was not done. Its text is what the program prints for it, behind `x10p: `.
#[derive(Clone, Copy, Debug, PartialEq, Eq)]
pub enum Fault {
    /// The text spells no module.
    Asm(AsmFault),
    /// The bytes are not an image.
    Image(ImageFault),
    /// The verifier refuses the module.
    Verify(VerifyFault),
    /// A rule of structure is broken, so that there are no bounds.
    Bounds(BoundFault),
    /// The module does not run at the given number of places.
    Places,
    /// The bytes are not a frame of so many places.
    Frame(FrameFault),
    /// The text of a log spells none.
    Log(LogFault),
    /// The log is one of another image.
    LogImage,
    /// This turn of a log that is audited, from 0, isn't what its place does then.
    LogDiffers(usize),
    /// After all turns of a log that is audited the run isn't over.
    LogOpen,
    /// Memory was refused, outside a run.
    Memory,
    /// Memory was refused to a place that ran.
    StopMemory,
    /// A count of a place that ran would have passed its greatest value.
    StopLimit(Limit),
    /// As many events were made as were allowed, and the run had not ended.
    Limit,
    /// With threads, as many turns of workers were posted as were allowed, and a worker had one more.
    Turns,
    /// With threads, a place refused a frame that was posted to it.
    Refused(u16),
    /// With threads, this turn of the log, from 0, isn't what the worker of its place did. The number is that of all turns
    /// where none differs, and a worker made another one, or the run is not over after them.
    Differs(usize),
    /// The thread of a place could not be started.
    Thread,
    /// A file can't be read, or what was printed can't be written.
    File,
}

impl Fault {
    /// The exit status of the program: 1 where the input is refused, 2 where the work was stopped, 4 for files.
    pub fn status(self) -> u8
        ensures { result ≡ status_of self }
    {
        match self {
            Fault::Asm(_) | Fault::Image(_) | Fault::Verify(_) | Fault::Bounds(_) => 1,
            Fault::Places | Fault::Frame(_) | Fault::Log(_) | Fault::LogImage => 1,
            Fault::LogDiffers(_) | Fault::LogOpen => 1,
            Fault::Memory | Fault::StopMemory | Fault::StopLimit(_) | Fault::Limit => 2,
            Fault::Turns | Fault::Refused(_) | Fault::Differs(_) | Fault::Thread => 2,
            Fault::File => 4,
        }
    }

    /// This fault, or that memory was refused.
    fn unless(self, is_memory: bool) -> Fault
        ensures memory { is_memory ≡ true → result ≡ fault.Memory }
        ensures other { is_memory ≡ false → result ≡ self }
    {
        if is_memory { Fault::Memory } else { self }
    }
}

impl fmt::Display for Fault {
    ghost output = { λ f. Some (fault_text f) };

    fn fmt<W: fmt::Write>(&self, f: &mut fmt::Formatter<W>) -> fmt::Result {
        match self {
            Fault::Asm(fault) => write_asm(*fault, f),
            Fault::Image(fault) => write_image(*fault, f),
            Fault::Verify(fault) => write_verify(*fault, f),
            Fault::Bounds(fault) => write_bounds(*fault, f),
            Fault::Frame(fault) => write_frame(*fault, f),
            Fault::Log(fault) => write_log(*fault, f),
            Fault::LogImage => f.write_str("log: line 2 Image"),
            Fault::LogDiffers(turn) => write!(f, "differs: turn {turn}"),
            Fault::LogOpen => f.write_str("open"),
            Fault::Places => f.write_str("places"),
            Fault::Memory => f.write_str("memory"),
            Fault::StopMemory => f.write_str("stop: Memory"),
            Fault::StopLimit(limit) => write!(f, "stop: Limit {limit}"),
            Fault::Limit => f.write_str("limit"),
            Fault::Turns => f.write_str("turns"),
            Fault::Refused(place) => write!(f, "refused: place {place}"),
            Fault::Differs(turn) => write!(f, "differs: turn {turn}"),
            Fault::Thread => f.write_str("thread"),
            Fault::File => f.write_str("file"),
        }
    }
}

impl std::error::Error for Fault {}

fn write_asm<W: fmt::Write>(told: AsmFault, f: &mut fmt::Formatter<W>) -> fmt::Result
    ensures { DisplaysOnOk W.write_str_gives f.old result
        (Some (fault_text (fault.Asm told))) f.new }
{
    let cause = asm_name(told.cause);
    let line = told.line;
    write!(f, "asm: line {line} {cause}")
}

fn write_image<W: fmt::Write>(told: ImageFault, f: &mut fmt::Formatter<W>) -> fmt::Result
    ensures { DisplaysOnOk W.write_str_gives f.old result
        (Some (fault_text (fault.Image told))) f.new }
{
    if let ImageFault::Code(function, pc) = told {
        return write!(f, "image: Code {function} {pc}");
    }
    let name = image_name(told);
    write!(f, "image: {name}")
}

fn write_verify<W: fmt::Write>(told: VerifyFault, f: &mut fmt::Formatter<W>) -> fmt::Result
    ensures { DisplaysOnOk W.write_str_gives f.old result
        (Some (fault_text (fault.Verify told))) f.new }
{
    let (function, pc) = (told.function, told.pc);
    let rule = verify_name(told.cause);
    match told.cause {
        VerifyCause::Structure(_) => write!(f, "verify: Structure {rule} {function} {pc}"),
        _ => write!(f, "verify: {rule} {function} {pc}"),
    }
}

fn write_bounds<W: fmt::Write>(told: BoundFault, f: &mut fmt::Formatter<W>) -> fmt::Result
    ensures { DisplaysOnOk W.write_str_gives f.old result
        (Some (fault_text (fault.Bounds told))) f.new }
{
    let (function, pc) = (told.function, told.pc);
    let rule = verify_name(VerifyCause::Structure(told.cause));
    write!(f, "verify: Structure {rule} {function} {pc}")
}

fn write_frame<W: fmt::Write>(told: FrameFault, f: &mut fmt::Formatter<W>) -> fmt::Result
    ensures { DisplaysOnOk W.write_str_gives f.old result
        (Some (fault_text (fault.Frame told))) f.new }
{
    let name = frame_name(told);
    write!(f, "frame: {name}")
}

/// The name of a fault for which bytes aren't a frame.
pub(crate) fn frame_name(fault: FrameFault) -> &'static str
    ensures { result.now ≡ frame_word fault }
{
    match fault {
        FrameFault::Short => "Short",
        FrameFault::Version => "Version",
        FrameFault::FrameType => "FrameType",
        FrameFault::Place => "Place",
        FrameFault::Tag => "Tag",
        FrameFault::Text => "Text",
        FrameFault::Order => "Order",
        FrameFault::Trailing => "Trailing",
        FrameFault::Memory => "Memory",
    }
}

fn write_log<W: fmt::Write>(told: LogFault, f: &mut fmt::Formatter<W>) -> fmt::Result
    ensures { DisplaysOnOk W.write_str_gives f.old result
        (Some (fault_text (fault.Log told))) f.new }
{
    let cause = log_name(told.cause);
    let line = told.line;
    write!(f, "log: line {line} {cause}")
}

/// The name of a cause for which a log is refused.
fn log_name(cause: LogCause) -> &'static str
    ensures { result.now ≡ log_word cause }
{
    match cause {
        LogCause::Head => "Head",
        LogCause::Place => "Place",
        LogCause::Taken => "Taken",
        LogCause::Key => "Key",
        LogCause::Frame => "Frame",
        LogCause::Printed => "Printed",
        LogCause::Count => "Count",
        LogCause::Spelling => "Spelling",
        LogCause::Ending => "Ending",
        LogCause::Memory => "Memory",
    }
}

impl From<AsmFault> for Fault {
    ghost from_gives = { λ f told. told ≡ of_asm f.cause f };

    fn from(fault: AsmFault) -> Fault {
        Fault::Asm(fault).unless(fault.cause == AsmCause::Memory)
    }
}

impl From<ImageFault> for Fault {
    ghost from_gives = { λ f told. told ≡ of_image f };

    fn from(fault: ImageFault) -> Fault {
        Fault::Image(fault).unless(fault == ImageFault::Memory)
    }
}

impl From<VerifyFault> for Fault {
    ghost from_gives = { λ f told. told ≡ of_verify f.cause f };

    fn from(fault: VerifyFault) -> Fault {
        Fault::Verify(fault).unless(fault.cause == VerifyCause::Memory)
    }
}

impl From<BoundFault> for Fault {
    ghost from_gives = { λ f told. told ≡ of_bounds f.cause f };

    fn from(fault: BoundFault) -> Fault {
        Fault::Bounds(fault).unless(fault.cause == BoundCause::Memory)
    }
}

impl From<OpenFault> for Fault {
    ghost from_gives = { λ f told. told ≡ of_open f };

    fn from(fault: OpenFault) -> Fault {
        match fault {
            OpenFault::Places => Fault::Places,
            OpenFault::Memory => Fault::Memory,
        }
    }
}

impl From<FrameFault> for Fault {
    ghost from_gives = { λ f told. told ≡ of_frame f };

    fn from(fault: FrameFault) -> Fault {
        Fault::Frame(fault).unless(fault == FrameFault::Memory)
    }
}

impl From<Stop> for Fault {
    ghost from_gives = { λ why told. told ≡ of_stop why };

    fn from(stop: Stop) -> Fault {
        match stop {
            Stop::Limit(limit) => Fault::StopLimit(limit),
            Stop::Memory | Stop::Stopped => Fault::StopMemory,
        }
    }
}

impl From<LogFault> for Fault {
    ghost from_gives = { λ f told. told ≡ of_log f.cause f };

    fn from(fault: LogFault) -> Fault {
        Fault::Log(fault).unless(fault.cause == LogCause::Memory)
    }
}

impl From<AuditFault> for Fault {
    ghost from_gives = { λ why told. told ≡ of_audit why };

    fn from(why: AuditFault) -> Fault {
        match why {
            AuditFault::Differs(turn) => Fault::LogDiffers(turn),
            AuditFault::Open => Fault::LogOpen,
            AuditFault::Stop(stop) => Fault::from(stop),
        }
    }
}

impl From<Unfinished> for Fault {
    ghost from_gives = { λ halt told. told ≡ of_halt halt };

    fn from(halt: Unfinished) -> Fault {
        match halt {
            Unfinished::Stop(stop) => Fault::from(stop),
            Unfinished::Limit => Fault::Limit,
            Unfinished::Memory => Fault::Memory,
        }
    }
}

impl From<WorkFault> for Fault {
    ghost from_gives = { λ why told. told ≡ of_work why };

    fn from(why: WorkFault) -> Fault {
        match why {
            WorkFault::Stop(_, stop, _) => Fault::from(stop),
            WorkFault::Turns(_) => Fault::Turns,
            WorkFault::Refused(place, _) => Fault::Refused(place),
            WorkFault::Differs(turn) => Fault::Differs(turn),
            WorkFault::Memory => Fault::Memory,
            WorkFault::Places => Fault::Places,
            WorkFault::Thread => Fault::Thread,
        }
    }
}

impl From<AllocError> for Fault {
    ghost from_gives = { λ _ told. told ≡ fault.Memory };

    fn from(_error: AllocError) -> Fault {
        Fault::Memory
    }
}

impl<T: Drop> From<AllocFailed<T>> for Fault {
    ghost from_gives = { λ _ told. told ≡ fault.Memory };

    fn from(_error: AllocFailed<T>) -> Fault {
        Fault::Memory
    }
}

impl From<io::Error> for Fault {
    ghost from_gives = { λ _ told. told ≡ fault.File };

    fn from(_error: io::Error) -> Fault {
        Fault::File
    }
}
