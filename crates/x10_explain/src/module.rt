//! A module as JSON, for other programs. docs/json.schema.json says what there is.

use crate::json::tell_verify;
use crate::known::{Known, term_of};
use crate::site::Site;
use crate::teller::{Name, Teller, comma};
use std::alloc::{AllocError, Global};
use x10_code::{Instr, name};
use x10_image::{ClassView, ImageView};
use x10_model::ImageVersion;

/// The module of an image as JSON, in a line, where its file has a name: classes, constants and functions; of each function its
/// bound and its first fault, and of each instruction what the verifier knows before it. The memory is that of the text, and of
/// one function's states.
pub fn list_json(alloc: Global, image: &ImageView, file: &str) -> Result<String, AllocError> {
    let mut out = Teller::new(alloc);
    let version = match image.version() {
        ImageVersion::One => 1,
        ImageVersion::Two => 2,
    };
    out.say(
        "{\"file\":{},\"version\":{},\"places\":{},\"classes\":[",
        &[
            Name::Json(file),
            Name::U8(version),
            Name::U16(image.least()),
        ],
    );
    for c in 0..image.classes() {
        tell_class(&mut out, c, &image.class(c));
    }
    tell_constants(&mut out, image);
    tell_functions(&mut out, image, file);
    out.finish()
}

// The kinds of the fields of a class.
fn tell_class(out: &mut Teller, c: usize, class: &ClassView) {
    out.say("{}[", &[comma(c)]);
    for n in 0..class.len() {
        out.say("{}", &[comma(n)]);
        out.say_value(Name::Kind(class.field(n)));
    }
    out.say("]", &[]);
}

// The numbers, and the texts.
fn tell_constants(out: &mut Teller, image: &ImageView) {
    out.say("],\"ints\":[", &[]);
    for i in 0..image.ints() {
        out.say("{}{}", &[comma(i), Name::I64(image.int(i))]);
    }
    out.say("],\"texts\":[", &[]);
    for t in 0..image.texts() {
        out.say("{}{}", &[comma(t), Name::Json(image.text(t))]);
    }
}

// The functions, and the number of the entry.
fn tell_functions<'a>(out: &mut Teller, image: &'a ImageView<'a>, file: &str) {
    let mut bounds = Vec::new(out.alloc());
    out.say("],\"functions\":[", &[]);
    for f in 0..image.functions() {
        let known = Known::read(out.alloc(), image, None, &mut bounds);
        match known {
            Ok(Some(known)) => {
                if let Some(site) = Site::new(image, None, f) {
                    tell_function(out, &site, &known, file);
                }
            }
            Ok(None) => return,
            Err(_) => return out.fail(),
        }
    }
    out.say("],\"entry\":{}}\n", &[Name::U16(image.entry())]);
}

fn tell_function(out: &mut Teller, site: &Site, known: &Known, file: &str) {
    let signature = site.signature();
    out.say(
        "{}{\"registers\":{},\"loops\":{},\"parameters\":[",
        &[
            comma(site.f),
            Name::U8(signature.registers()),
            Name::U8(signature.loops()),
        ],
    );
    for n in 0..signature.parameters() {
        out.say("{}", &[comma(n)]);
        out.say_value(Name::Slot(signature.parameter(n)));
    }
    out.say("],\"result\":", &[]);
    out.say_value(Name::Gives(signature.result()));
    // nothing where its structure is refused
    let bound = Some(known.finding.bound).filter(|bound| *bound != 0);
    out.say(",\"bound\":{},\"fault\":", &[Name::Maybe(bound)]);
    match known.finding.fault {
        Some(fault) => tell_verify(out, file, *site, &known.finding.flow, fault),
        None => out.say("null", &[]),
    }
    out.say(",\"instructions\":[", &[]);
    tell_instructions(out, site, known);
    out.say("]}", &[]);
}

fn tell_instructions(out: &mut Teller, site: &Site, known: &Known) {
    for pc in 0..site.len() {
        if let Some(instr) = site.instr(pc) {
            tell_instruction(out, instr, pc);
            tell_known(out, site, known, pc);
            out.say(
                ",\"left\":{},\"atomic\":{}}",
                &[
                    Name::Maybe(known.left_at(pc)),
                    Name::Bool(known.is_inside(pc)),
                ],
            );
        }
    }
}

fn tell_instruction(out: &mut Teller, instr: Instr, pc: usize) {
    out.say(
        "{}{\"operation\":\"{}\",\"a\":{},\"b\":{},\"c\":{},\"x\":{},\"line\":",
        &[
            comma(pc),
            Name::Word(name(instr.op)),
            Name::U8(instr.a),
            Name::U8(instr.b),
            Name::U8(instr.c),
            Name::U32(instr.x),
        ],
    );
    out.say_value(Name::Instruction(instr));
}

// The registers that are known to be set before an instruction; nothing where no way leads to it, or the function is refused
// before it. Each with the place that it is, or of its home, where that is known.
fn tell_known(out: &mut Teller, site: &Site, known: &Known, pc: usize) {
    if known.is_past(pc) || !known.finding.flow.is_reached(pc) {
        return out.say(",\"known\":null", &[]);
    }
    out.say(",\"known\":[", &[]);
    let mut before: usize = 0;
    for register in 0..site.signature().registers() {
        if let Some(kind) = known.finding.flow.kind(pc, register) {
            out.say(
                "{}{\"register\":{},\"kind\":",
                &[comma(before), Name::U8(register)],
            );
            before = 1;
            out.say_value(Name::Kind(kind));
            out.say(",\"place\":", &[]);
            match term_of(known, site.image, pc, register, kind) {
                Some(place) => out.say_value(Name::Place(place)),
                None => out.say("null", &[]),
            }
            out.say("}", &[]);
        }
    }
    out.say("]", &[]);
}
