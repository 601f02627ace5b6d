//! What an instruction names that isn't there.

use crate::site::Site;
use crate::teller::{Name, Teller};
use x10_code::{Instr, Operand, form, name};
use x10_image::ImageView;
use x10_model::limits::MOST_REGISTERS;

/// How many there are of what an operand names: of what, and what has them.
#[derive(Clone, Copy)]
struct Stock {
    owner: &'static str,
    count: usize,
    one: &'static str,
    many: &'static str,
}

/// Tells the first operand, by a, b, c and x, that names what isn't there, in a line.
pub(crate) fn tell_index(out: &mut Teller, site: &Site, instr: Instr) {
    let form = form(instr.op);
    let operands = [
        (form.a, u32::from(instr.a)),
        (form.b, u32::from(instr.b)),
        (form.c, u32::from(instr.c)),
        (form.x, instr.x),
    ];
    for (operand, n) in operands {
        if matches!(operand, Operand::Arguments) {
            if tell_arguments(out, site, instr, n as usize) {
                return;
            }
        } else if let Some(stock) = stock_of(site, instr, operand)
            && n as usize >= stock.count
        {
            return tell_lost(out, site, instr, operand, n, stock);
        }
    }
}

// What an operand names one of, if it does.
fn stock_of(site: &Site, instr: Instr, operand: Operand) -> Option<Stock> {
    let image = site.image;
    let (owner, count, one, many) = match operand {
        Operand::Unused | Operand::Count | Operand::Field | Operand::Arguments => return None,
        Operand::Result if !names_result(site, instr) => return None,
        Operand::Register | Operand::Result => {
            let registers = usize::from(site.signature().registers());
            ("function", registers, "register", "registers")
        }
        Operand::Slot => {
            let slots = usize::from(site.signature().loops());
            ("function", slots, "loop slot", "loop slots")
        }
        Operand::Int => ("module", image.ints(), "int", "ints"),
        Operand::Text => ("module", image.texts(), "text", "texts"),
        Operand::Place => ("module", usize::from(image.least()), "place", "places"),
        Operand::Class => ("module", image.classes(), "class", "classes"),
        Operand::Function => ("module", image.functions(), "function", "functions"),
        Operand::Target => ("function", site.len(), "instruction", "instructions"),
    };
    Some(Stock {
        owner,
        count,
        one,
        many,
    })
}

// That something isn't there, of which there are so many.
fn tell_lost(out: &mut Teller, site: &Site, instr: Instr, operand: Operand, n: u32, stock: Stock) {
    let count = Name::Numbered(stock.count, stock.one, stock.many);
    match operand {
        Operand::Int => tell_constant(out, site.image, instr, stock.count),
        Operand::Place => out.say(
            "There may be no place {}: the line `places` promises {}.\n",
            &[Name::U32(n), count],
        ),
        _ => {
            out.say(
                "There is no {} {}: the {} has {}.",
                &[
                    Name::Word(stock.one),
                    Name::U32(n),
                    Name::Word(stock.owner),
                    count,
                ],
            );
            if stock.one == "register" && n < u32::from(MOST_REGISTERS) {
                let wanted = Name::U32(n.saturating_add(1));
                out.say(" With `func {}` it has {}.", &[wanted, wanted]);
            }
            out.say("\n", &[]);
        }
    }
}

// The number of a constant that isn't there; and of the constant that has this value, if there is one.
fn tell_constant(out: &mut Teller, image: &ImageView, instr: Instr, count: usize) {
    let n = instr.x;
    out.say("{} is the number of a constant; ", &[Name::U32(n)]);
    match count {
        0 => out.say("there are no constants, which are lines `int N`.\n", &[]),
        1 => out.say("the only constant is 0.\n", &[]),
        _ => out.say("constants are 0 to {}.\n", &[Name::Usize(count - 1)]),
    }
    for i in 0..image.ints() {
        if image.int(i) == i64::from(n) {
            let (number, op) = (Name::Usize(i), Name::Word(name(instr.op)));
            return out.say(
                "The int {} is constant {}: {} {} {}\n",
                &[Name::U32(n), number, op, Name::U8(instr.a), number],
            );
        }
    }
}

// Whether a names the register of a result.
fn names_result(site: &Site, instr: Instr) -> bool {
    if !matches!(form(instr.op).x, Operand::Function) {
        return site.signature().result().is_some();
    }
    match site.callee(instr) {
        None => false,
        Some(signature) => signature.result().is_some(),
    }
}

// How many registers an instruction asks for, from b on.
fn arguments_of(site: &Site, instr: Instr) -> usize {
    if matches!(form(instr.op).x, Operand::Class) {
        return match site.fields(instr.x as usize) {
            None => 0,
            Some(fields) => fields.len(),
        };
    }
    match site.callee(instr) {
        None => 0,
        Some(signature) => signature.parameters(),
    }
}

// Tells which arguments aren't there, and whether some aren't.
fn tell_arguments(out: &mut Teller, site: &Site, instr: Instr, first: usize) -> bool {
    let count = arguments_of(site, instr);
    let registers = usize::from(site.signature().registers());
    let last = first.saturating_add(count).saturating_sub(1);
    if (count == 0 && first == 0) || (count > 0 && last < registers) {
        return false;
    }
    let (from, to) = (Name::Usize(first), Name::Usize(last));
    let has = Name::Numbered(registers, "register", "registers");
    match count {
        0 => out.say(
            "{} has no arguments here, so its first register is written 0; it is {}.\n",
            &[Name::Word(name(instr.op)), from],
        ),
        1 => out.say(
            "The argument is in r{}; the function has {}.\n",
            &[from, has],
        ),
        _ => out.say(
            "The {} arguments are in r{} to r{}; the function has {}.\n",
            &[Name::Usize(count), from, to, has],
        ),
    }
    true
}
