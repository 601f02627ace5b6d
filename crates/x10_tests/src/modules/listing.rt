use crate::sources::image_of;
use std::alloc::{AllocError, Global};
use std::test::*;
use x10_asm::list;
use x10_code::{Instr, Op};
use x10_image::{Function, ImageView, Module, write};
use x10_kinds::Kind;
use x10_model::{ImageVersion, Slot};

/// A module with a line of every sort, and its listing.
pub const WHOLE: &str = "places 64
class
class int place text rail obj:0 opt:1 gref:1
int 0
int -9223372036854775808
int 9223372036854775807
text \"\"
text \"a \\\"b\\\" \\\\ c\\nd\u{e9}\t;\"
func 3 8 here:1 gref:0 here:1 opt:0
INTK 255 4294967295
ADD 0 1 2
RET 2
end
func 1 0 none
RET 0
end
entry 1
";

fn instr(op: Op, a: u8, b: u8, c: u8, x: u32) -> Instr {
    Instr { op, a, b, c, x }
}

fn slot(kind: Kind, home_here: bool) -> Slot {
    Slot { kind, home_here }
}

fn kinds(alloc: Global) -> Result<Vec<Vec<Kind>>, AllocError> {
    let mut classes = Vec::new(alloc);
    classes.push(Vec::new(alloc))?;
    classes.push(Vec::from_slice(
        alloc,
        &[
            Kind::Int,
            Kind::Place,
            Kind::Text,
            Kind::Rail,
            Kind::Obj(0),
            Kind::Opt(1),
            Kind::GRef(1),
        ],
    )?)?;
    Ok(classes)
}

fn functions(alloc: Global) -> Result<Vec<Function>, AllocError> {
    let first = Function {
        parameters: Vec::from_slice(
            alloc,
            &[
                slot(Kind::GRef(0), false),
                slot(Kind::GRef(1), true),
                slot(Kind::Opt(0), false),
            ],
        )?,
        registers: 3,
        loops: 8,
        result: Some(slot(Kind::GRef(1), true)),
        code: Vec::from_slice(
            alloc,
            &[
                instr(Op::Intk, 255, 0, 0, u32::MAX),
                instr(Op::Add, 0, 1, 2, 0),
                instr(Op::Ret, 2, 0, 0, 0),
            ],
        )?,
    };
    let second = Function {
        parameters: Vec::new(alloc),
        registers: 1,
        loops: 0,
        result: None,
        code: Vec::from_slice(alloc, &[instr(Op::Ret, 0, 0, 0, 0)])?,
    };
    let mut functions = Vec::new(alloc);
    functions.push(first)?;
    functions.push(second)?;
    Ok(functions)
}

/// The module that `WHOLE` lists.
fn whole(alloc: Global) -> Result<Module, AllocError> {
    let mut texts = Vec::new(alloc);
    texts.push(String::new(alloc))?;
    texts.push(String::from_str(alloc, "a \"b\" \\ c\nd\u{e9}\t;")?)?;
    Ok(Module {
        version: ImageVersion::One,
        least_places: 64,
        classes: kinds(alloc)?,
        ints: Vec::from_slice(alloc, &[0, i64::MIN, i64::MAX])?,
        texts,
        functions: functions(alloc)?,
        entry: 1,
    })
}

/// The image of `WHOLE`'s module.
pub fn image(rt: &HostRuntime) -> Result<Vec<u8>, Fail> {
    Ok(write(rt.alloc(), &whole(rt.alloc())?)?)
}

/// The listing of an image.
fn listed(alloc: Global, view: &ImageView) -> Result<String, Fail> {
    Ok(list(alloc, view)?)
}

#[test]
fn every_line_is_listed(rt: HostRuntime) -> Result<(), Fail> {
    let image = image(&rt)?;
    let view = image_of(rt.alloc(), &image)?;
    assert!(rt; listed(rt.alloc(), &view)?.as_str() == WHOLE);
    Ok(())
}
