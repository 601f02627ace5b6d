//! Images that are read.

ghost use Rattle.std.specs.Prelude.{◌<◌, length};

use crate::sources::image_of;
use std::alloc::{AllocError, Global};
use std::test::*;
use x10_code::{Instr, Op, code};
use x10_image::{Function, ImageFault, ImageView, Module, write};
use x10_model::ImageVersion;
use x10_samples::{SEVEN, with_byte};

pub(crate) fn instr(op: Op, a: u8, x: u32) -> Instr {
    Instr {
        op,
        a,
        b: 0,
        c: 0,
        x,
    }
}

/// The fault of the bytes, if they have one.
fn fault(rt: &HostRuntime, bytes: &[u8]) -> Option<ImageFault> {
    ImageView::read(rt.alloc(), bytes).err()
}

/// The fault of the bytes of `SEVEN` with one of them changed.
fn changed(rt: &HostRuntime, at: usize, byte: u8) -> Option<ImageFault> {
    fault(rt, &with_byte(at, byte))
}

/// The module that a view shows, taken from it part by part.
pub(crate) fn rebuilt(alloc: Global, view: &ImageView<'_>) -> Result<Module, AllocError> {
    let mut module = Module {
        version: view.version(),
        least_places: view.least(),
        classes: Vec::new(alloc),
        ints: Vec::new(alloc),
        texts: Vec::new(alloc),
        functions: Vec::new(alloc),
        entry: view.entry(),
    };
    for c in 0..view.classes() {
        let class = view.class(c);
        let mut fields = Vec::new(alloc);
        for i in 0..class.len() {
            fields.push(class.field(i))?;
        }
        module.classes.push(fields)?;
    }
    for i in 0..view.ints() {
        module.ints.push(view.int(i))?;
    }
    for i in 0..view.texts() {
        module.texts.push(String::from_str(alloc, view.text(i))?)?;
    }
    for f in 0..view.functions() {
        module.functions.push(function_of(alloc, view, f)?)?;
    }
    Ok(module)
}

fn function_of(alloc: Global, view: &ImageView<'_>, f: usize) -> Result<Function, AllocError>
    requires { f < length view.now.functions }
{
    let signature = view.signature(f);
    let mut function = Function {
        parameters: Vec::new(alloc),
        registers: signature.registers(),
        loops: signature.loops(),
        result: signature.result(),
        code: Vec::new(alloc),
    };
    for i in 0..signature.parameters() {
        function.parameters.push(signature.parameter(i))?;
    }
    for pc in 0..view.code_len(f) {
        function.code.push(view.instr(f, pc))?;
    }
    Ok(function)
}

/// A function that takes and gives nothing.
pub(crate) fn plain(alloc: Global) -> Result<Function, AllocError> {
    Ok(Function {
        parameters: Vec::new(alloc),
        registers: 1,
        loops: 0,
        result: None,
        code: Vec::from_slice(alloc, &[instr(Op::Ret, 0, 0)])?,
    })
}

/// The least number of places and the entry of a view, and how many classes, numbers, texts and functions it has.
fn sizes_of(view: &ImageView) -> (u16, u16, [usize; 4]) {
    let counts = [view.classes(), view.ints(), view.texts(), view.functions()];
    (view.least(), view.entry(), counts)
}

/// Whether the code of each function of a view is these bytes.
fn has_code(view: &ImageView, bytes: &[u8]) -> bool {
    for f in 0..view.functions() {
        if view.code(f) != bytes {
            return false;
        }
    }
    true
}

/// Whether a function is that of `SEVEN`.
fn prints_seven(function: &Function) -> bool {
    let code = [
        instr(Op::Intk, 0, 0),
        instr(Op::Print, 0, 0),
        instr(Op::Ret, 0, 0),
    ];
    function.registers == 1
        && function.loops == 0
        && function.result.is_none()
        && function.parameters.is_empty()
        && function.code.as_slice() == code.as_slice()
}

#[test]
fn seven_is_read(rt: HostRuntime) -> Result<(), Fail> {
    let view = image_of(rt.alloc(), &SEVEN)?;
    assert!(rt; sizes_of(&view) == (1, 0, [0, 1, 0, 1]));
    assert!(rt; has_code(&view, &SEVEN[40..]));
    let module = rebuilt(rt.alloc(), &view)?;
    assert!(rt; module.ints.as_slice() == [7].as_slice());
    for function in &module.functions {
        assert!(rt; prints_seven(function));
    }
    Ok(())
}

#[test]
fn version_is_shown_and_kept(rt: HostRuntime) -> Result<(), Fail> {
    let second = with_byte(5, 2);
    let (first, second) = (
        image_of(rt.alloc(), &SEVEN)?,
        image_of(rt.alloc(), &second)?,
    );
    assert!(rt; first.version() == ImageVersion::One);
    assert!(rt; second.version() == ImageVersion::Two);
    assert!(rt; written(rt.alloc(), &second)?.as_slice() == with_byte(5, 2).as_slice());
    Ok(())
}

#[test]
fn beginnings_are_short(rt: HostRuntime) {
    for n in 0..64 {
        assert_eq!(rt; fault(&rt, &SEVEN[..n]), Some(ImageFault::Short));
    }
}

/// Which byte of `SEVEN` becomes which other, and the fault of that.
const FAULTS: [(usize, u8, Option<ImageFault>); 17] = [
    (0, 0x59, Some(ImageFault::Magic)),
    (5, 2, None),
    (5, 0, Some(ImageFault::Version)),
    (5, 3, Some(ImageFault::Version)),
    (7, 64, None),
    (7, 65, Some(ImageFault::Count)),
    (7, 0, Some(ImageFault::Count)),
    (32, 8, Some(ImageFault::Kind)),
    (32, 5, Some(ImageFault::Kind)),
    (19, 1, Some(ImageFault::Reserved)),
    (31, 1, Some(ImageFault::Reserved)),
    (17, 1, Some(ImageFault::Entry)),
    (32, 1, Some(ImageFault::Entry)),
    (42, 1, Some(ImageFault::Code(0, 0))),
    (56, 0xff, Some(ImageFault::Code(0, 2))),
    (4, 9, Some(ImageFault::Version)),
    (3, 9, Some(ImageFault::Magic)),
];

#[test]
fn each_fault_is_met(rt: HostRuntime) {
    for (at, byte, want) in FAULTS {
        assert!(rt; changed(&rt, at, byte) == want, "byte {at}");
    }
}

/// A text of one byte after the constant number, and the rest of `SEVEN`.
fn with_text(alloc: Global, byte: u8) -> Result<Vec<u8>, AllocError> {
    let mut bytes = Vec::from_slice(alloc, &SEVEN[..28])?;
    bytes.extend_from_slice(&[0, 1, byte])?;
    bytes.extend_from_slice(&SEVEN[28..])?;
    if let Some(texts) = bytes.get_mut(13) {
        *texts = 1;
    }
    Ok(bytes)
}

#[test]
fn texts_are_utf8(rt: HostRuntime) -> Result<(), Fail> {
    assert_eq!(rt; fault(&rt, &with_text(rt.alloc(), b'A')?), None);
    assert_eq!(rt;
        fault(&rt, &with_text(rt.alloc(), 0xff)?),
        Some(ImageFault::Text)
    );
    let mut longer = Vec::from_slice(rt.alloc(), &SEVEN)?;
    longer.push(0)?;
    assert_eq!(rt; fault(&rt, &longer), Some(ImageFault::Trailing));
    Ok(())
}

/// The image of the module that a view shows.
pub(crate) fn written(alloc: Global, view: &ImageView) -> Result<Vec<u8>, Fail> {
    Ok(write(alloc, &rebuilt(alloc, view)?)?)
}

/// Whether bytes are refused, or are the image of a module that is written again as they are.
fn is_refused_or_spelled(alloc: Global, bytes: &[u8]) -> Result<bool, Fail> {
    match ImageView::read(alloc, bytes) {
        Ok(view) => Ok(written(alloc, &view)?.as_slice() == bytes),
        Err(fault) => Ok(fault != ImageFault::Memory),
    }
}

#[test]
fn changed_bytes_are_refused_or_spelled(rt: HostRuntime) -> Result<(), Fail> {
    for at in 0..64 {
        for byte in 0..=255 {
            let mut bytes = SEVEN;
            bytes[at] = byte;
            assert!(rt; is_refused_or_spelled(rt.alloc(), &bytes)?);
        }
    }
    Ok(())
}

/// Operations without operands, and the fault of an image that has one second, in version 1 and in version 2.
pub(crate) const OPERATIONS: [(Op, Option<ImageFault>, Option<ImageFault>); 3] = [
    (Op::Finb, None, None),
    (Op::Atomb, Some(ImageFault::Code(0, 1)), None),
    (Op::Atome, Some(ImageFault::Code(0, 1)), None),
];

#[test]
fn operations_of_a_version_are_read(rt: HostRuntime) {
    for (op, first, second) in OPERATIONS {
        let mut bytes = with_byte(48, code(op));
        assert!(rt; fault(&rt, &bytes) == first);
        bytes[5] = 2;
        assert!(rt; fault(&rt, &bytes) == second);
    }
}

#[test]
fn faults_show_their_names(rt: HostRuntime) -> Result<(), Fail> {
    assert_eq!(rt;
        format!(in rt.alloc(); "{}", ImageFault::Code(3, 7))?.as_str(),
        "Code 3 7"
    );
    assert_eq!(rt;
        format!(in rt.alloc(); "{}", ImageFault::Trailing)?.as_str(),
        "Trailing"
    );
    Ok(())
}
