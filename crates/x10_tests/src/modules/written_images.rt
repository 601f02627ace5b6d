//! Modules that are written as images, and ones that have none.

use super::images::{OPERATIONS, instr, plain, rebuilt, written};
use crate::messages::heaps::long;
use crate::sources::image_of;
use std::alloc::{AllocError, Global};
use std::test::*;
use x10_code::Op;
use x10_image::{Function, ImageFault, Module, write};
use x10_kinds::Kind;
use x10_model::{ImageVersion, Slot};

/// A function with the most of everything.
fn largest(alloc: Global) -> Result<Function, AllocError> {
    let slot = Slot {
        kind: Kind::GRef(1),
        home_here: true,
    };
    let mut function = Function {
        parameters: Vec::new(alloc),
        registers: 64,
        loops: 8,
        result: Some(slot),
        code: Vec::new(alloc),
    };
    for _ in 0..16 {
        function.parameters.push(slot)?;
    }
    for x in 0..4095 {
        function.code.push(instr(Op::Intk, 63, x))?;
    }
    function.code.push(instr(Op::Ret, 0, 0))?;
    Ok(function)
}

/// A module with the most functions and the longest text, and classes that name later ones.
fn full(alloc: Global) -> Result<Module, AllocError> {
    let mut module = Module {
        version: ImageVersion::One,
        least_places: 64,
        classes: Vec::new(alloc),
        ints: Vec::from_slice(alloc, &[i64::MIN, -1, 0, i64::MAX])?,
        texts: Vec::new(alloc),
        functions: Vec::new(alloc),
        entry: 255,
    };
    module.classes.push(Vec::from_slice(alloc, &[Kind::Obj(1), Kind::Opt(1), Kind::GRef(1)])?)?;
    module.classes.push(Vec::from_slice(
        alloc,
        &[Kind::Int, Kind::Place, Kind::Text, Kind::Rail],
    )?)?;
    module.texts.push(String::new(alloc))?;
    module.texts.push(long(alloc, 65_535)?)?;
    module.functions.push(largest(alloc)?)?;
    for _ in 1..256 {
        module.functions.push(plain(alloc)?)?;
    }
    Ok(module)
}

/// How many functions the module has that bytes spell.
fn functions_of(alloc: Global, bytes: &[u8]) -> Result<usize, Fail> {
    let view = image_of(alloc, bytes)?;
    Ok(rebuilt(alloc, &view)?.functions.len())
}

/// The image of the module that bytes spell.
fn written_again(alloc: Global, bytes: &[u8]) -> Result<Vec<u8>, Fail> {
    let view = image_of(alloc, bytes)?;
    written(alloc, &view)
}

#[test]
fn written_is_read_and_written_again(rt: HostRuntime) -> Result<(), Fail> {
    let bytes = write(rt.alloc(), &full(rt.alloc())?)?;
    assert!(rt; functions_of(rt.alloc(), &bytes)? == 256);
    assert!(rt; written_again(rt.alloc(), &bytes)?.as_slice() == bytes.as_slice());
    Ok(())
}

/// Why a module has no image.
fn refusal(alloc: Global, module: &Module) -> Option<ImageFault> {
    write(alloc, module).err()
}

/// The full module, with one thing more or another in place of one.
fn with_entry(alloc: Global, entry: u16) -> Result<Module, AllocError> {
    let mut module = full(alloc)?;
    module.entry = entry;
    Ok(module)
}

fn with_function(alloc: Global) -> Result<Module, AllocError> {
    let mut module = with_entry(alloc, 0)?;
    module.functions.push(plain(alloc)?)?;
    Ok(module)
}

fn with_class(alloc: Global) -> Result<Module, AllocError> {
    let mut module = full(alloc)?;
    module
        .classes
        .push(Vec::from_slice(alloc, &[Kind::Obj(3)])?)?;
    Ok(module)
}

fn with_instruction(alloc: Global) -> Result<Module, AllocError> {
    let mut module = full(alloc)?;
    for function in &mut module.functions {
        function.code.push(instr(Op::At, 0, 0))?;
    }
    Ok(module)
}

fn with_bad_instruction(alloc: Global) -> Result<Module, AllocError> {
    let mut module = full(alloc)?;
    let mut bad = plain(alloc)?;
    bad.code.push(instr(Op::Jmp, 1, 0))?;
    module.functions.pop();
    module.functions.push(bad)?;
    Ok(module)
}

#[test]
fn modules_without_image_are_refused(rt: HostRuntime) -> Result<(), Fail> {
    let alloc = rt.alloc();
    let entry = refusal(alloc, &with_entry(alloc, 0)?);
    assert!(rt; entry == Some(ImageFault::Entry));
    let function = refusal(alloc, &with_function(alloc)?);
    assert!(rt; function == Some(ImageFault::Count));
    let class = refusal(alloc, &with_class(alloc)?);
    assert!(rt; class == Some(ImageFault::Kind));
    let instruction = refusal(alloc, &with_instruction(alloc)?);
    assert!(rt; instruction == Some(ImageFault::Count));
    let bad = refusal(alloc, &with_bad_instruction(alloc)?);
    assert!(rt; bad == Some(ImageFault::Code(255, 1)));
    Ok(())
}

/// A module of a version with one function, which has an operation without operands second.
fn with_operation(alloc: Global, version: ImageVersion, op: Op) -> Result<Module, AllocError> {
    let mut module = Module {
        version,
        least_places: 1,
        classes: Vec::new(alloc),
        ints: Vec::new(alloc),
        texts: Vec::new(alloc),
        functions: Vec::new(alloc),
        entry: 0,
    };
    let mut function = plain(alloc)?;
    function.code.push(instr(op, 0, 0))?;
    module.functions.push(function)?;
    Ok(module)
}

#[test]
fn operations_of_a_version_are_written(rt: HostRuntime) -> Result<(), Fail> {
    for (op, first, second) in OPERATIONS {
        let module = with_operation(rt.alloc(), ImageVersion::One, op)?;
        assert!(rt; refusal(rt.alloc(), &module) == first);
        let module = with_operation(rt.alloc(), ImageVersion::Two, op)?;
        assert!(rt; refusal(rt.alloc(), &module) == second);
    }
    Ok(())
}
