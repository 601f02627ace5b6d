//! The listing that shows what the verifier knows.
ghost use Rattle.std.specs.Prelude.{◌≡◌, ◌++◌, ◌∷◌, [], Ok, IfOk, OnOk};
ghost use Rattle.std.specs.String.{string_bytes};
ghost use Rattle.x10_asm.specs.Comments.{Tells, said};
ghost use Rattle.x10_asm.specs.Listing.{listing};
ghost use Rattle.x10_asm.specs.Reading.{module_of};

use crate::commented::push_commented;
use crate::head::head;
use crate::known::{Known, term_of};
use crate::site::Site;
use crate::source::Source;
use crate::teller::{Name, Teller};
use crate::text::front;
use crate::verify::explained;
use std::alloc::{AllocError, Global};
use x10_asm::{Statement, line_of, list};
use x10_code::{Instr, Operand, form};
use x10_image::{ClassView, ImageView, SigView};

/// How many bytes a comment shows of a text at most.
const SHOWN: usize = 64;

/// The listing of an image for people: the canonical listing, with comments in lines of their own. They number classes,
/// constants and functions, and say before each instruction its number, what the verifier knows there and how many steps are
/// left at most, and what the instruction names. A function that is refused has its first fault explained before the faulty
/// instruction, and no states after it. Where the image was assembled from a text, `text`, its labels are named too, at the
/// instructions that they stand before and where another one names such an instruction. Without the comments it is the listing,
/// so it assembles to the same image. Linear in the image and the text, each function's flow aside; the memory is that of the
/// listing with and without comments, and of one function's states.
pub fn list_verbose(
    alloc: Global,
    image: &ImageView,
    text: Option<&str>,
) -> Result<String, AllocError>
    ensures says { IfOk result (λ s. said (string_bytes s) ≡ said (listing image.now)) }
    ensures again { IfOk result (λ s. module_of (string_bytes s) ≡ Ok image.now) }
{
    image.fits();
    let plain = list(alloc, image)?;
    let listing = commented(alloc, image, text, plain.as_str())?;
    Ok(listing)
}

/// A listing, with comments.
fn commented(
    alloc: Global,
    image: &ImageView,
    text: Option<&str>,
    plain: &str,
) -> Result<String, AllocError>
    ensures { IfOk result (λ s. said (string_bytes s) ≡ said plain.now) }
{
    let Some(text) = text else {
        return whole(alloc, image, None, plain);
    };
    let source = Source::read(alloc, text)?;
    let listing = whole(alloc, image, Some(&source), plain)?;
    Ok(listing)
}

/// The lines of a listing, with comments between them.
fn whole(
    alloc: Global,
    image: &ImageView,
    source: Option<&Source>,
    plain: &str,
) -> Result<String, AllocError>
    ensures { IfOk result (λ s. said (string_bytes s) ≡ said plain.now) }
{
    let mut out = String::new(alloc);
    let mut walk = Walk::new(alloc, image, source);
    let mut rest = plain;
    while let Some((line, after)) = rest.split_once('\n') {
        push_line(&mut out, &mut walk, line)?;
        rest = after;
    }
    out.push_str(rest)?;
    Ok(out)
}

/// A line, with the comments before it.
fn push_line(out: &mut String, walk: &mut Walk, line: &str) -> Result<(), AllocError>
    ensures { OnOk result (Tells (string_bytes out.old) (string_bytes out.new)
        (line.now ++ 10 ∷ [])) }
{
    let note = walk.note(line)?;
    push_commented(out, note.as_str())?;
    push_plain(out, line)?;
    Ok(())
}

fn push_plain(out: &mut String, line: &str) -> Result<(), AllocError>
    ensures { OnOk result (string_bytes out.new ≡ string_bytes out.old ++ (line.now ++ 10 ∷ [])) }
{
    out.push_str(line)?;
    out.push_str("\n")?;
    Ok(())
}

/// How far a walk over the lines of a listing has come: how many lines there were of each sort, and what is known of the function
/// that is open.
#[derive(Drop)]
struct Walk<'a> {
    alloc: Global,
    image: &'a ImageView<'a>,
    source: Option<&'a Source<'a>>,
    classes: usize,
    ints: usize,
    texts: usize,
    pc: usize,
    bounds: Vec<u64>,
    known: Option<Known<'a>>,
}

impl<'a> Walk<'a> {
    fn new(alloc: Global, image: &'a ImageView<'a>, source: Option<&'a Source<'a>>) -> Walk<'a> {
        Walk {
            alloc,
            image,
            source,
            classes: 0,
            ints: 0,
            texts: 0,
            pc: 0,
            bounds: Vec::new(alloc),
            known: None,
        }
    }

    /// What is said before a line.
    fn note(&mut self, line: &str) -> Result<String, AllocError> {
        let mut out = Teller::new(self.alloc);
        match line_of(line).statement {
            Statement::Class => {
                out.say("class {}", &[Name::Usize(self.classes)]);
                self.classes = self.classes.saturating_add(1);
            }
            Statement::Int => {
                out.say("int {}", &[Name::Usize(self.ints)]);
                self.ints = self.ints.saturating_add(1);
            }
            Statement::Text => {
                out.say("text {}", &[Name::Usize(self.texts)]);
                self.texts = self.texts.saturating_add(1);
            }
            Statement::Func => self.begin(&mut out),
            Statement::Instruction(_) => {
                self.tell(&mut out);
                self.pc = self.pc.saturating_add(1);
            }
            Statement::Entry => out.say(
                "a run begins with function {}",
                &[Name::U16(self.image.entry())],
            ),
            _ => {}
        }
        out.finish()
    }

    // The function that begins.
    fn begin(&mut self, out: &mut Teller) {
        let f = self.bounds.len();
        self.pc = 0;
        match Known::read(self.alloc, self.image, self.source, &mut self.bounds) {
            Ok(known) => self.known = known,
            Err(_) => return out.fail(),
        }
        out.say("function {}", &[Name::Usize(f)]);
        if let Some(known) = &self.known
            && known.finding.bound != 0
        {
            let bound = known.finding.bound;
            out.say(", at most {} {}", &[Name::U64(bound), steps_word(bound)]);
        }
    }

    // The instruction that comes: its number and its labels, what is known before it, and what it names.
    fn tell(&self, out: &mut Teller) {
        let Some(known) = &self.known else {
            return;
        };
        let Some(site) = Site::new(self.image, None, self.bounds.len().saturating_sub(1)) else {
            return;
        };
        let pc = self.pc;
        out.say("{}", &[Name::Usize(pc)]);
        known.tell_labels(out, pc);
        out.say(":", &[]);
        if !known.is_past(pc) {
            tell_state(out, &site, known, pc);
        }
        if let Some(instr) = site.instr(pc) {
            tell_named(out, &site, known, instr);
        }
        if let Some(fault) = known.finding.fault
            && usize::from(fault.pc) == pc
        {
            out.say("\n", &[]);
            let head = head(self.alloc, self.image, fault);
            out.take(head);
            explained(out, site, &known.finding.flow, fault);
        }
    }
}

// The word for so many steps.
fn steps_word(count: u64) -> Name<'static> {
    Name::Word(if count == 1 { "step" } else { "steps" })
}

// The kinds of the registers that are set, each with a place that it is known to be at: `r0 int, r1 gref:0 at here`; how many
// steps are left, and whether the instruction is inside an atomic region.
fn tell_state(out: &mut Teller, site: &Site, known: &Known, pc: usize) {
    if known.finding.flow.is_reached(pc) {
        tell_registers(out, site, known, pc);
    } else {
        out.say(" no way leads here", &[]);
    }
    if let Some(count) = known.left_at(pc) {
        out.say(
            "; at most {} {} left",
            &[Name::U64(count), steps_word(count)],
        );
        if known.is_inside(pc) {
            out.say("; inside an atomic region", &[]);
        }
    }
}

fn tell_registers(out: &mut Teller, site: &Site, known: &Known, pc: usize) {
    let mut before = " ";
    for register in 0..site.signature().registers() {
        if let Some(kind) = known.finding.flow.kind(pc, register) {
            out.say(
                "{}{}{}",
                &[
                    Name::Word(before),
                    Name::Register(register),
                    Name::Kind(kind),
                ],
            );
            before = ", ";
            if let Some(place) = term_of(known, site.image, pc, register, kind) {
                out.say(" at {}", &[Name::Place(place)]);
            }
        }
    }
    if before == " " {
        out.say(" no register is set", &[]);
    }
}

// What x names: a constant, a class, a function, or an instruction that has a label.
fn tell_named(out: &mut Teller, site: &Site, known: &Known, instr: Instr) {
    let x = instr.x as usize;
    let image = site.image;
    match form(instr.op).x {
        Operand::Int if x < image.ints() => out.say(
            "; int {} is {}",
            &[Name::Usize(x), Name::I64(image.int(x))],
        ),
        Operand::Text if x < image.texts() => tell_text(out, x, image.text(x)),
        Operand::Class => {
            if let Some(fields) = site.fields(x) {
                out.say("; class {} is", &[Name::Usize(x)]);
                tell_kinds(out, &fields);
            }
        }
        Operand::Function => {
            if let Some(signature) = site.callee(instr) {
                out.say("; function {} takes", &[Name::Usize(x)]);
                tell_signature(out, &signature);
            }
        }
        Operand::Target => known.tell_target(out, x),
        _ => {}
    }
}

// A text in quotes; of a long one the beginning, and how many bytes it has.
fn tell_text(out: &mut Teller, number: usize, text: &str) {
    let shown = front(text, SHOWN);
    out.say(
        "; text {} is{}",
        &[Name::Usize(number), Name::Quoted(shown)],
    );
    if shown.len() < text.len() {
        out.say(" and so on, {} bytes", &[Name::Usize(text.len())]);
    }
}

fn tell_kinds(out: &mut Teller, fields: &ClassView) {
    for n in 0..fields.len() {
        out.say("{}", &[Name::Kind(fields.field(n))]);
    }
}

// What a function takes and gives.
fn tell_signature(out: &mut Teller, signature: &SigView) {
    if signature.parameters() == 0 {
        out.say(" nothing", &[]);
    }
    for n in 0..signature.parameters() {
        out.say("{}", &[Name::Slot(signature.parameter(n))]);
    }
    out.say(" and gives{}", &[Name::Gives(signature.result())]);
}
