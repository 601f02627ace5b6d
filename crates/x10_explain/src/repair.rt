//! How what the verifier misses is put right.

use crate::lack::{Inquiry, Lack};
use crate::teller::{Name, Teller};
use x10_kinds::{Kind, Term};
use x10_verify::Want;

/// Tells how to put right what is missing, in a line, where there is a usual way. Where ways meet, what is known comes from them.
pub(crate) fn tell_repair(out: &mut Teller, inquiry: &Inquiry, lack: Lack, meets: bool) {
    match lack {
        Lack::Register(register, want, _) => {
            let sentence = match inquiry.kind(register) {
                None if meets =>
                    "Set r{} on every way that leads here, to one kind, or before the ways part.\n",
                None => "Set r{} before it is read.\n",
                Some(have) => converted(want, have),
            };
            out.say(sentence, &[Name::U8(register), Name::U8(register)]);
        }
        Lack::Home(register, Term::Reg(place), _) => out.say(
            "Put `HOME {} {}` before it: then r{} is the home of r{}.\n",
            &[
                Name::U8(place),
                Name::U8(register),
                Name::U8(place),
                Name::U8(register),
            ],
        ),
        Lack::Home(register, ..) => out.say(
            "Ask before it, by `IFHERE {} @LABEL`; or go to the home, by HOME and AT, to a function whose parameter is here:c.\n",
            &[Name::U8(register)],
        ),
        Lack::Dropped => out.say(
            "Nobody waits for it: give the function an object or a global reference, to put it into.\n",
            &[],
        ),
        Lack::NoField(..) | Lack::NoResult | Lack::LeadsOut => {}
    }
}

// The instruction that makes what is asked for from what a register holds, where there is one.
fn converted(want: Want, have: Kind) -> &'static str {
    let is_object = matches!(want, Want::AnObject | Want::Fitting(Kind::Obj(_)));
    match have {
        Kind::Opt(_) if is_object => {
            "It may be null. Put `IFOBJ {} {} @LABEL` before it, which goes to a label where it is.\n"
        }
        Kind::GRef(_) if is_object => {
            "Put `GOPEN {} {}` before it, which opens a global reference at its home.\n"
        }
        Kind::Place if matches!(want, Want::AnIntOrText | Want::Fitting(Kind::Int)) => {
            "Put `PLACEI {} {}` before it, which makes the number of a place.\n"
        }
        Kind::Int if matches!(want, Want::Fitting(Kind::Place)) => {
            "Put `PLACEN {} {} @LABEL` before it, which makes a place of a number, and goes to a label where there is none.\n"
        }
        _ => "",
    }
}
