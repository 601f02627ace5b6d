//! The numbers of causes, and the causes of numbers.
ghost use Rattle.std.specs.Prelude.{◌≡◌};
ghost use Rattle.x10_c.specs.Numbers.{asm_kind, asm_of, frame_kind, frame_of, image_kind, image_of, limit_of, log_kind, structure_kind, verify_kind, verify_of};

use x10_asm::AsmCause;
use x10_bounds::BoundCause;
use x10_frame::FrameFault;
use x10_image::ImageFault;
use x10_kinds::Limit;
use x10_log::LogCause;
use x10_verify::VerifyCause;

pub fn kind_of_asm(cause: AsmCause) -> u32
    ensures { result ≡ asm_kind cause }
{
    match cause {
        AsmCause::Word => 101,
        AsmCause::Number => 102,
        AsmCause::Count => 103,
        AsmCause::Order => 104,
        AsmCause::Label => 105,
        AsmCause::Text => 106,
        AsmCause::Limit => 107,
        AsmCause::Entry => 108,
        AsmCause::Memory => 109,
    }
}

pub fn asm_of_kind(kind: u32) -> Option<AsmCause>
    ensures { result ≡ asm_of kind }
{
    match kind {
        101 => Some(AsmCause::Word),
        102 => Some(AsmCause::Number),
        103 => Some(AsmCause::Count),
        104 => Some(AsmCause::Order),
        105 => Some(AsmCause::Label),
        106 => Some(AsmCause::Text),
        107 => Some(AsmCause::Limit),
        108 => Some(AsmCause::Entry),
        109 => Some(AsmCause::Memory),
        _ => None,
    }
}

pub fn kind_of_image(fault: ImageFault) -> u32
    ensures { result ≡ image_kind fault }
{
    match fault {
        ImageFault::Short => 201,
        ImageFault::Magic => 202,
        ImageFault::Version => 203,
        ImageFault::Count => 204,
        ImageFault::Kind => 205,
        ImageFault::Text => 206,
        ImageFault::Trailing => 207,
        ImageFault::Reserved => 208,
        ImageFault::Entry => 209,
        ImageFault::Code(..) => 210,
        ImageFault::Memory => 211,
    }
}

/// The fault of an image with this number; one of code is at this function and instruction.
pub fn image_of_kind(kind: u32, function: u16, pc: u16) -> Option<ImageFault>
    ensures { result ≡ image_of kind function pc }
{
    match kind {
        201 => Some(ImageFault::Short),
        202 => Some(ImageFault::Magic),
        203 => Some(ImageFault::Version),
        204 => Some(ImageFault::Count),
        205 => Some(ImageFault::Kind),
        206 => Some(ImageFault::Text),
        207 => Some(ImageFault::Trailing),
        208 => Some(ImageFault::Reserved),
        209 => Some(ImageFault::Entry),
        210 => Some(ImageFault::Code(function, pc)),
        211 => Some(ImageFault::Memory),
        _ => None,
    }
}

pub fn kind_of_structure(cause: BoundCause) -> u32
    ensures { result ≡ structure_kind cause }
{
    match cause {
        BoundCause::Nesting => 301,
        BoundCause::Jump => 302,
        BoundCause::LoopSlot => 303,
        BoundCause::CallOrder => 304,
        BoundCause::Atomic => 305,
        BoundCause::TooLarge => 306,
        BoundCause::Memory => 307,
    }
}

pub fn kind_of_verify(cause: VerifyCause) -> u32
    ensures { result ≡ verify_kind cause }
{
    match cause {
        VerifyCause::Structure(cause) => kind_of_structure(cause),
        VerifyCause::Index => 401,
        VerifyCause::Unset => 402,
        VerifyCause::Kind => 403,
        VerifyCause::Home => 404,
        VerifyCause::Result => 405,
        VerifyCause::Memory => 406,
    }
}

pub fn verify_of_kind(kind: u32) -> Option<VerifyCause>
    ensures { result ≡ verify_of kind }
{
    match kind {
        301 => Some(VerifyCause::Structure(BoundCause::Nesting)),
        302 => Some(VerifyCause::Structure(BoundCause::Jump)),
        303 => Some(VerifyCause::Structure(BoundCause::LoopSlot)),
        304 => Some(VerifyCause::Structure(BoundCause::CallOrder)),
        305 => Some(VerifyCause::Structure(BoundCause::Atomic)),
        306 => Some(VerifyCause::Structure(BoundCause::TooLarge)),
        307 => Some(VerifyCause::Structure(BoundCause::Memory)),
        401 => Some(VerifyCause::Index),
        402 => Some(VerifyCause::Unset),
        403 => Some(VerifyCause::Kind),
        404 => Some(VerifyCause::Home),
        405 => Some(VerifyCause::Result),
        406 => Some(VerifyCause::Memory),
        _ => None,
    }
}

pub fn kind_of_log(cause: LogCause) -> u32
    ensures { result ≡ log_kind cause }
{
    match cause {
        LogCause::Head => 801,
        LogCause::Place => 802,
        LogCause::Taken => 803,
        LogCause::Key => 804,
        LogCause::Frame => 805,
        LogCause::Printed => 806,
        LogCause::Count => 807,
        LogCause::Spelling => 808,
        LogCause::Ending => 809,
        LogCause::Memory => 810,
    }
}

pub fn kind_of_frame(fault: FrameFault) -> u32
    ensures { result ≡ frame_kind fault }
{
    match fault {
        FrameFault::Short => 901,
        FrameFault::Version => 902,
        FrameFault::FrameType => 903,
        FrameFault::Place => 904,
        FrameFault::Tag => 905,
        FrameFault::Text => 906,
        FrameFault::Order => 907,
        FrameFault::Trailing => 908,
        FrameFault::Memory => 909,
    }
}

pub fn frame_of_kind(kind: u32) -> Option<FrameFault>
    ensures { result ≡ frame_of kind }
{
    match kind {
        901 => Some(FrameFault::Short),
        902 => Some(FrameFault::Version),
        903 => Some(FrameFault::FrameType),
        904 => Some(FrameFault::Place),
        905 => Some(FrameFault::Tag),
        906 => Some(FrameFault::Text),
        907 => Some(FrameFault::Order),
        908 => Some(FrameFault::Trailing),
        909 => Some(FrameFault::Memory),
        _ => None,
    }
}

/// The limit with this number.
pub fn limit_of_number(number: u64) -> Option<Limit>
    ensures { result ≡ limit_of number }
{
    match number {
        1 => Some(Limit::Objects),
        2 => Some(Limit::Texts),
        3 => Some(Limit::Rails),
        4 => Some(Limit::References),
        5 => Some(Limit::Finishes),
        6 => Some(Limit::Activities),
        7 => Some(Limit::FrameObjects),
        8 => Some(Limit::FrameTexts),
        9 => Some(Limit::FrameRails),
        10 => Some(Limit::Keys),
        11 => Some(Limit::Frames),
        _ => None,
    }
}
