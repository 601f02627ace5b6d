//! The names of causes, as faults are told.
ghost use Rattle.std.specs.Prelude.{◌≡◌};
ghost use Rattle.x10_explain.specs.Heads.{asm_word, image_word, word_of};

use x10_asm::AsmCause;
use x10_bounds::BoundCause;
use x10_image::ImageFault;
use x10_verify::VerifyCause;

/// The name of a cause for which a text is refused.
pub fn asm_name(cause: AsmCause) -> &'static str
    ensures { result.now ≡ asm_word cause }
{
    match cause {
        AsmCause::Word => "Word",
        AsmCause::Number => "Number",
        AsmCause::Count => "Count",
        AsmCause::Order => "Order",
        AsmCause::Label => "Label",
        AsmCause::Text => "Text",
        AsmCause::Limit => "Limit",
        AsmCause::Entry => "Entry",
        AsmCause::Memory => "Memory",
    }
}

/// The name of a fault of an image, without the place that `Code` has.
pub fn image_name(fault: ImageFault) -> &'static str
    ensures { result.now ≡ image_word fault }
{
    match fault {
        ImageFault::Short => "Short",
        ImageFault::Magic => "Magic",
        ImageFault::Version => "Version",
        ImageFault::Count => "Count",
        ImageFault::Kind => "Kind",
        ImageFault::Text => "Text",
        ImageFault::Trailing => "Trailing",
        ImageFault::Reserved => "Reserved",
        ImageFault::Entry => "Entry",
        ImageFault::Code(..) => "Code",
        ImageFault::Memory => "Memory",
    }
}

/// The name of the rule that a module breaks, one of structure too.
pub fn verify_name(cause: VerifyCause) -> &'static str
    ensures { result.now ≡ word_of cause }
{
    match cause {
        VerifyCause::Structure(BoundCause::Nesting) => "Nesting",
        VerifyCause::Structure(BoundCause::Jump) => "Jump",
        VerifyCause::Structure(BoundCause::LoopSlot) => "LoopSlot",
        VerifyCause::Structure(BoundCause::CallOrder) => "CallOrder",
        VerifyCause::Structure(BoundCause::Atomic) => "Atomic",
        VerifyCause::Structure(BoundCause::TooLarge) => "TooLarge",
        VerifyCause::Structure(BoundCause::Memory) => "Memory",
        VerifyCause::Index => "Index",
        VerifyCause::Unset => "Unset",
        VerifyCause::Kind => "Kind",
        VerifyCause::Home => "Home",
        VerifyCause::Result => "Result",
        VerifyCause::Memory => "Memory",
    }
}
