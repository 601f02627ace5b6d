//! Which rule of structure an instruction breaks, and by what.

use crate::site::Site;
use crate::teller::{Name, Teller};
use x10_bounds::{BoundCause, Shape, Spot, classify, opener};
use x10_code::{Instr, Op, name};
use x10_model::limits::MOST_TURNS;

/// What is between an opener and its closer.
#[derive(Clone, Copy, PartialEq, Eq)]
enum Region {
    Loop,
    Finish,
    Atomic,
}

impl Region {
    // Its name, and the operation that closes it.
    fn words(self) -> (Name<'static>, Name<'static>) {
        match self {
            Region::Loop => (Name::Word("loop"), Name::Word("ENDL")),
            Region::Finish => (Name::Word("finish"), Name::Word("FINE")),
            Region::Atomic => (Name::Word("atomic region"), Name::Word("ATOME")),
        }
    }
}

// The region that an operation opens or closes, and whether it opens it.
fn bracket(op: Op) -> Option<(Region, bool)> {
    match classify(op) {
        Shape::Loop => Some((Region::Loop, true)),
        Shape::EndOfLoop => Some((Region::Loop, false)),
        Shape::Finish => Some((Region::Finish, true)),
        Shape::EndOfFinish => Some((Region::Finish, false)),
        Shape::Atomic => Some((Region::Atomic, true)),
        Shape::EndOfAtomic => Some((Region::Atomic, false)),
        _ => None,
    }
}

/// A region that is open, and the instruction that opened it.
#[derive(Clone, Copy)]
struct Open {
    region: Region,
    at: usize,
}

impl Open {
    // The article before the region's name.
    fn article(self) -> Name<'static> {
        Name::Word(if self.region == Region::Atomic {
            "an"
        } else {
            "a"
        })
    }
}

/// An instruction that breaks a rule of structure, and what is around each instruction of its function.
#[derive(Clone, Copy)]
struct Broken<'a> {
    site: Site<'a>,
    spots: &'a [Spot],
    pc: usize,
    instr: Instr,
}

/// Tells which rule of structure an instruction breaks. Linear in the function's instructions.
pub(crate) fn tell_structure(
    out: &mut Teller,
    site: Site,
    cause: BoundCause,
    pc: usize,
    instr: Instr,
) {
    let Ok(spots) = site.spots(out.alloc()) else {
        return out.fail();
    };
    let broken = Broken {
        site,
        spots: &spots,
        pc,
        instr,
    };
    match cause {
        BoundCause::Nesting => broken.tell_nesting(out),
        BoundCause::Jump => broken.tell_jump(out),
        BoundCause::LoopSlot => broken.tell_slot(out),
        BoundCause::CallOrder => broken.tell_order(out),
        BoundCause::Atomic => broken.tell_kept_out(out),
        BoundCause::TooLarge => out.say(
            "The bound of the function is above 2^48. It is the sum of what its instructions cost, each as often as the loops around it turn together: 1, and of CALL and AT the bound of the called function too.\nTake smaller counts.\n",
            &[],
        ),
        BoundCause::Memory => {}
    }
}

impl Broken<'_> {
    // The innermost region that is open before an instruction.
    fn innermost(&self, pc: usize) -> Option<Open> {
        let at = usize::from(opener(*self.spots.get(pc)?)?);
        let (region, _) = bracket(self.site.instr(at)?.op)?;
        Some(Open { region, at })
    }

    // The innermost region around it that is no loop: neither RET nor a jump leaves one.
    fn held(&self) -> Option<Open> {
        let mut at = self.pc;
        for _ in 0..self.pc {
            let open = self.innermost(at)?;
            if open.region != Region::Loop {
                return Some(open);
            }
            at = open.at;
        }
        None
    }

    fn op(&self) -> Name<'static> {
        Name::Word(name(self.instr.op))
    }

    fn tell_nesting(&self, out: &mut Teller) {
        let open = self.innermost(self.pc);
        match (bracket(self.instr.op), open) {
            (Some((region, false)), None) => {
                let (name, _) = region.words();
                out.say(
                    "No {} is open here, so {} closes none.\n",
                    &[name, self.op()],
                );
            }
            (Some((region, false)), Some(open)) if open.region != region => {
                self.tell_closer(out, open);
            }
            (None, _) if self.instr.op == Op::Ret => self.tell_return(out, open),
            _ => out.say(
                "The last instruction of a function has to be RET; here it is {}.\n",
                &[self.op()],
            ),
        }
    }

    // A closer of a region where another one is open.
    fn tell_closer(&self, out: &mut Teller, open: Open) {
        let (name, closer) = open.region.words();
        let article = if open.region == Region::Atomic {
            "An"
        } else {
            "A"
        };
        out.say(
            "{} {} is open here, and its {} has to come before this {}. It begins in {}",
            &[
                Name::Word(article),
                name,
                closer,
                self.op(),
                self.site.at(open.at),
            ],
        );
    }

    // A RET in a finish or an atomic region, or a last one where something is open.
    fn tell_return(&self, out: &mut Teller, open: Option<Open>) {
        let is_last = self.site.instr(self.pc.saturating_add(1)).is_none();
        if let Some(held) = self.held()
            && !is_last
        {
            let (name, closer) = held.region.words();
            return out.say(
                "RET stands in {} {}: jump to the {}, and return after it. The {} begins in {}",
                &[held.article(), name, closer, name, self.site.at(held.at)],
            );
        }
        if let Some(open) = open {
            let (name, closer) = open.region.words();
            out.say(
                "No {} closes the {} that begins in {}",
                &[closer, name, self.site.at(open.at)],
            );
        }
    }

    fn tell_jump(&self, out: &mut Teller) {
        let target = self.instr.x as usize;
        if self.instr.op == Op::Endl {
            return self.tell_end_of_loop(out, target);
        }
        if target <= self.pc {
            return out.say(
                "Only ENDL goes back, and a jump goes to a later instruction; this one goes to {}",
                &[self.site.at(target)],
            );
        }
        if self.site.instr(target).is_none() {
            return out.say(
                "A jump stays in its function, which has no instruction {}.\n",
                &[Name::Usize(target)],
            );
        }
        if let Some(entered) = self.innermost(target)
            && entered.at > self.pc
        {
            let (name, _) = entered.region.words();
            return out.say(
                "It goes from outside into the {} that begins in {}",
                &[name, self.site.at(entered.at)],
            );
        }
        if let Some(left) = self.held() {
            let (name, closer) = left.region.words();
            out.say(
                "It goes out of {} {}, which is left through its {} alone. The {} begins in {}",
                &[left.article(), name, closer, name, self.site.at(left.at)],
            );
        }
    }

    // An ENDL that goes elsewhere than behind its LOOP.
    fn tell_end_of_loop(&self, out: &mut Teller, target: usize) {
        if let Some(open) = self.innermost(self.pc) {
            out.say(
                "ENDL goes to the instruction right after its LOOP, here {}; this one goes to {}. The LOOP is in {}",
                &[
                    Name::Usize(open.at.saturating_add(1)),
                    Name::Usize(target),
                    self.site.at(open.at),
                ],
            );
        }
    }

    fn tell_slot(&self, out: &mut Teller) {
        let Some(spot) = self.spots.get(self.pc) else {
            return;
        };
        let (around, slot) = (spot.loops, self.instr.a);
        if self.instr.op == Op::Endl {
            return out.say(
                "ENDL has the slot of its LOOP, {}; this one has {}.\n",
                &[Name::U16(around.saturating_sub(1)), Name::U8(slot)],
            );
        }
        if u16::from(slot) != around {
            let loops = match around {
                0 => "No loop is",
                1 => "1 loop is",
                _ => "{} loops are",
            };
            out.say(loops, &[Name::U16(around)]);
            return out.say(
                " around this one, so its slot is {} and not {}.\n",
                &[Name::U16(around), Name::U8(slot)],
            );
        }
        self.tell_slots_or_turns(out);
    }

    // A loop whose slot the function hasn't got, or whose count is out of range.
    fn tell_slots_or_turns(&self, out: &mut Teller) {
        let signature = self.site.signature();
        let (slot, loops) = (self.instr.a, signature.loops());
        if slot < loops {
            return out.say(
                "A loop turns 1 to {} times; this one {}.\n",
                &[Name::U16(MOST_TURNS), Name::U32(self.instr.x)],
            );
        }
        out.say(
            "The function has {}; for slot {} its line begins with `func {} {}`.\n",
            &[
                Name::Numbered(usize::from(loops), "loop slot", "loop slots"),
                Name::U8(slot),
                Name::U8(signature.registers()),
                Name::U8(slot.saturating_add(1)),
            ],
        );
    }

    // A CALL or an AT of a function that isn't above.
    fn tell_order(&self, out: &mut Teller) {
        let (f, callee) = (self.site.f, self.instr.x as usize);
        let functions = self.site.image.functions();
        if callee >= functions {
            return out.say(
                "There is no function {}: the module has {}.\n",
                &[
                    Name::Usize(callee),
                    Name::Numbered(functions, "function", "functions"),
                ],
            );
        }
        let sentence = if callee == f {
            "Function {} calls itself, and CALL and AT lead only to functions above. ASYNC and ATA may start any.\n"
        } else {
            "Function {} is below function {}, and CALL and AT lead only to functions above: put it first.\n"
        };
        out.say(sentence, &[Name::Usize(callee), Name::Usize(f)]);
    }

    // An operation that doesn't stand in an atomic region.
    fn tell_kept_out(&self, out: &mut Teller) {
        if let Some(held) = self.held()
            && held.region == Region::Atomic
        {
            out.say(
                "{} stands in the atomic region that begins in {}",
                &[self.op(), self.site.at(held.at)],
            );
        }
        out.say(
            match self.instr.op {
                Op::Call =>
                    "Nothing is called inside: put what the function does here, or call it before the ATOMB or after the ATOME.\n",
                Op::At =>
                    "Nothing goes elsewhere inside: go before the ATOMB or after the ATOME. The function that runs there has an atomic region of its own.\n",
                Op::Async | Op::Ata =>
                    "Nothing is started inside: start it before the ATOMB or after the ATOME.\n",
                Op::Finb =>
                    "Nothing waits inside: close the region before the finish, or put it into the finish.\n",
                _ =>
                    "One is enough, since nothing else moves here until its ATOME: leave this one out, or close the first before it.\n",
            },
            &[],
        );
    }
}
