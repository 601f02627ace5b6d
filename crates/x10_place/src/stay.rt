//! The stay of an activity at this place, and one step of it.
ghost use Rattle.std.specs.Prelude.{◌≡◌, ◌+◌, ◌<◌, ◌^◌, ◌⊎◌, ◌↔◌, IsTrue, Err, OnErr, OnOk, IfErr, IfOk, length};
ghost use Rattle.x10_code.specs.declared.op.Op.TheVariants as op;
ghost use Rattle.x10_kinds.specs.declared.limit.Limit.{Limit};
ghost use Rattle.x10_kinds.specs.declared.limit.Limit.TheVariants as limits;
ghost use Rattle.x10_kinds.specs.declared.stop.Stop.TheVariants as stop;
ghost use Rattle.x10_code.specs.declared.instr.Instr.{Instr};
ghost use Rattle.x10_verify.specs.Printing.{PrintsText};
ghost use Rattle.x10_place.specs.Frames.{IsInside, IsFetchedFor, word_at};
ghost use Rattle.x10_place.specs.Routes.{route_of};
ghost use Rattle.x10_heap.specs.Heaps.{IsFull};
ghost use Rattle.x10_place.specs.declared.stay.Locality.{Locality};
ghost use Rattle.x10_place.specs.Stays.{location, innermost_at, IsBegun, IsPlaced, Calls, Returns, IsPrinted, Prints, GoesOnInside, OpensFinish, LeavesFinish, HasFinish, WaitsAtFinish, ReadsStore, OverfillsBy, Refuses, Steps};

use crate::call_frame::CallFrame;
use crate::line::Line;
use crate::outcome::{Deed, Departure, Outcome};
use crate::route::{Route, classify};
use crate::store::Store;
use std::alloc::{AllocError, Global};
use std::marker::Model;
use x10_code::{Instr, Op};
use x10_heap::Heap;
use x10_kinds::Stop;
use x10_model::Finish;
use x10_verify::Verified;

mod stretch;

/// A place of a run: its number, and how many places there are.
#[derive(Clone, Copy, Debug, PartialEq, Eq)]
pub(crate) struct Locality {
    pub(crate) here: u16,
    pub(crate) places: u16,
}

/// The stay that waits for a result: at which place, and its key there.
#[derive(Clone, Copy, Debug, PartialEq, Eq)]
pub struct Origin {
    pub place: u16,
    pub key: u32,
}

/// The stay of an activity at this place: the function that it executes, and those that called it, the last one last; the
/// finishes that it opened, the last one last, and the one that it inherited; whether it waits for an `at`, whether it is
/// inside an atomic region, and where its result goes. Call frames are boxed, so that a call and a return move pointers and
/// no words.
#[derive(Drop)]
pub struct Stay {
    pub(crate) top: Box<CallFrame>,
    pub(crate) callers: Vec<Box<CallFrame>>,
    pub(crate) finishes: Vec<u32>,
    pub(crate) inherited: Finish,
    pub(crate) away: bool,
    pub(crate) inside: bool,
    pub(crate) back: Option<Origin>,
}

impl Model for Stay {
    ghost use Rattle.std.specs.Prelude.{reverse};
    ghost use Rattle.x10_place.specs.Stays.{StayState, origin_as, frames_of};

    ghost Value = { StayState };

    ghost view = { λ a. record { top = a.top.value; callers = frames_of a.callers.items; finishes = reverse a.finishes.items; inherited = a.inherited; away = a.away; inside = a.inside; back = origin_as a.back } };
}

impl Stay {
    /// The function that an instruction calls begins. Where memory is refused, nothing has changed.
    #[inline(always)]
    fn call(
        &mut self,
        alloc: Global,
        verified: &Verified,
        store: &mut Store,
        instr: Instr,
    ) -> Result<(), AllocError>
        requires fetched { IsFetchedFor verified.now.program self.old.top instr }
        requires op { instr.op ≡ op.Call }
        ensures ok { IfOk result (λ _. Calls verified.now.program self.old instr self.new) }
        ensures err { OnErr result (self.new ≡ self.old) }
        ensures kept { store.new ≡ store.old }
    {
        self.callers.reserve(1)?;
        let callee = self.top.callee(alloc, verified, store, instr)?;
        let caller = std::mem::replace(&mut self.top, callee);
        self.callers.push_reserved(caller);
        Ok(())
    }

    /// The function ends, and its caller goes on with the result, if there is one. Where there is no caller, the stay ends with
    /// it, which is for the place to do.
    #[inline(always)]
    fn ret(&mut self, verified: &Verified, store: &mut Store, instr: Instr) -> Outcome
        requires placed { IsPlaced verified.now.program self.old }
        requires fetched { IsFetchedFor verified.now.program self.old.top instr }
        requires op { instr.op ≡ op.Ret }
        ensures returns { Returns verified.now.program self.old store.old instr result self.new
            store.new }
    {
        let Some(mut caller) = self.callers.pop() else {
            return Outcome::ForPlace(Deed::Leave, instr);
        };
        caller.resume(verified, &self.top, instr);
        let ended = std::mem::replace(&mut self.top, caller);
        store.keep(ended);
        Outcome::Goes
    }

    /// The instruction at which the stay stands.
    #[inline(always)]
    pub(crate) fn instr(&self, verified: &Verified) -> Instr
        requires { IsInside verified.now.program self.now.top }
        ensures { IsFetchedFor verified.now.program self.now.top result }
    {
        verified.certificate();
        let top = self.frame();
        verified.fetch(usize::from(top.function), usize::from(top.pc))
    }

    /// The call frame of a stay that ended.
    #[inline(always)]
    pub(crate) fn into_frame(self) -> Box<CallFrame> {
        self.top
    }

    /// The innermost finish that is open here, or the one that the stay inherited.
    #[inline(always)]
    pub(crate) fn innermost(&self, here: u16) -> Finish
        ensures { result ≡ innermost_at here self.now }
    {
        match self.finishes.last() {
            Some(number) => Finish {
                home: here,
                number: *number,
            },
            None => self.inherited,
        }
    }

    /// The stay of the activity that an instruction begins under a finish.
    pub(crate) fn child(
        &self,
        alloc: Global,
        verified: &Verified,
        store: &mut Store,
        instr: Instr,
        under: Finish,
    ) -> Result<Stay, AllocError>
        requires fetched { IsFetchedFor verified.now.program self.now.top instr }
        requires op { instr.op ≡ op.Async }
        ensures begun { IfOk result (IsBegun verified.now.program self.now.top.registers.items
            instr under) }
        ensures kept { store.new ≡ store.old }
    {
        Ok(Stay {
            top: self.top.callee(alloc, verified, store, instr)?,
            callers: Vec::new(alloc),
            finishes: Vec::new(alloc),
            inherited: under,
            away: false,
            inside: false,
            back: None,
        })
    }

    /// An atomic region is entered, or left.
    #[inline(always)]
    fn mark(&mut self, inside: bool)
        requires { self.old.top.pc + 1 < 2 ^ 16 }
        ensures { GoesOnInside inside self.old self.new }
    {
        self.top.next();
        self.inside = inside;
    }

    /// A finish is opened. Where it is refused, nothing has changed.
    fn open_finish(&mut self, store: &mut Store) -> Result<(), Stop>
        requires next { self.old.top.pc + 1 < 2 ^ 16 }
        requires within { store.old.here < store.old.places }
        ensures ok { OnOk result (OpensFinish self.old store.old self.new store.new) }
        ensures err { IfErr result (λ why. (self.new ≡ self.old) × (store.new ≡ store.old)
            × ((why ≡ stop.Memory) ⊎ ((why ≡ stop.Limit limits.Finishes)
            × IsFull store.old.opened))) }
        ensures full { IsFull store.old.opened → result ≡ Err (stop.Limit limits.Finishes) }
    {
        let number = store.next_number()?;
        if self.finishes.reserve(1).is_err() {
            return Err(Stop::Memory);
        }
        store.open_finish(number)?;
        self.finishes.push_reserved(number);
        self.top.next();
        Ok(())
    }

    /// The innermost finish is closed, or the stay waits there.
    #[inline(always)]
    fn close_finish(&mut self, store: &mut Store) -> Outcome
        requires next { self.old.top.pc + 1 < 2 ^ 16 }
        requires open { HasFinish self.old store.old }
        ensures leaves { LeavesFinish self.old store.old result self.new store.new }
    {
        let last = self.finishes.len() - 1;
        let number = self.finishes[last];
        if !store.is_done(number) {
            return Outcome::Waits;
        }
        store.close_finish(number);
        self.finishes.truncate(last);
        self.top.next();
        Outcome::Goes
    }

    /// Whether the stay stands at the end of a finish that may not end yet.
    pub(crate) fn is_waiting(&self, verified: &Verified, store: &Store) -> bool
        requires inside { IsInside verified.now.program self.now.top }
        requires open { (i : Instr) → IsFetchedFor verified.now.program self.now.top i
            → i.op ≡ op.Fine → HasFinish self.now store.now }
        ensures { (i : Instr) × IsFetchedFor verified.now.program self.now.top i
            × (IsTrue result ↔ (i.op ≡ op.Fine)
            × WaitsAtFinish self.now store.now self.now store.now) }
    {
        let instr = self.instr(verified);
        match instr.op {
            Op::Fine => self.has_open_finish(store),
            _ => false,
        }
    }

    /// Whether the innermost finish may not end yet.
    fn has_open_finish(&self, store: &Store) -> bool
        requires { HasFinish self.now store.now }
        ensures { IsTrue result ↔ WaitsAtFinish self.now store.now self.now store.now }
    {
        let last = self.finishes.len() - 1;
        !store.is_done(self.finishes[last])
    }

    /// The line that a PRINT of a register gives: its number, or its text, which is copied.
    fn line(
        &self,
        alloc: Global,
        verified: &Verified,
        heap: &Heap,
        register: u8,
    ) -> Result<Line, AllocError>
        requires there { register < length self.now.top.registers.items }
        requires print { (i : Instr) × IsFetchedFor verified.now.program self.now.top i
            × (i.op ≡ op.Print) × (i.a ≡ register) }
        requires text { PrintsText verified.now.program self.now.top.function self.now.top.pc
            → word_at self.now.top.registers.items register < length heap.now.texts }
        ensures { IfOk result (IsPrinted verified.now.program heap.now self.now.top register) }
    {
        let top = self.frame();
        let word = top.word(register);
        if !verified.prints_text(usize::from(top.function), usize::from(top.pc)) {
            return Ok(Line::Int(word.cast_signed()));
        }
        heap.fits();
        Ok(Line::Text(String::from_str(alloc, heap.text(word as u32))?))
    }

    /// Prints what a register holds. Where memory is refused, nothing has changed.
    fn print(
        &mut self,
        alloc: Global,
        verified: &Verified,
        store: &mut Store,
        instr: Instr,
    ) -> Result<(), AllocError>
        requires fetched { IsFetchedFor verified.now.program self.old.top instr }
        requires op { instr.op ≡ op.Print }
        requires reads { PrintsText verified.now.program self.old.top.function self.old.top.pc
            → word_at self.old.top.registers.items instr.a < length store.old.heap.texts }
        requires there { instr.a < length self.old.top.registers.items }
        requires next { self.old.top.pc + 1 < 2 ^ 16 }
        ensures ok { OnOk result (Prints verified.now.program self.old store.old instr self.new
            store.new) }
        ensures err { OnErr result ((self.new ≡ self.old) × (store.new ≡ store.old)) }
    {
        let line = self.line(alloc, verified, &store.heap, instr.a)?;
        store.print(line)?;
        self.top.next();
        Ok(())
    }

    /// One step: what becomes of the stay. Where it is refused, nothing has changed.
    #[inline(always)]
    pub(crate) fn step(
        &mut self,
        alloc: Global,
        verified: &Verified,
        locality: Locality,
        store: &mut Store,
        instr: Instr,
    ) -> Result<Outcome, Stop>
        requires placed { IsPlaced verified.now.program self.old }
        requires fetched { IsFetchedFor verified.now.program self.old.top instr }
        requires within { store.old.here < store.old.places }
        requires reads { ReadsStore (route_of instr.op)
            (location verified.now.program locality) self.old store.old instr }
        ensures ok { IfOk result (λ outcome. Steps (route_of instr.op)
            (location verified.now.program locality) self.old store.old instr outcome self.new
            store.new) }
        ensures err { IfErr result (λ why. (self.new ≡ self.old) × (store.new ≡ store.old)
            × Refuses (route_of instr.op) self.old store.old instr why) }
        ensures full { (limit : Limit) → OverfillsBy (route_of instr.op) self.old store.old instr
            limit → result ≡ Err (stop.Limit limit) }
    {
        let made = match classify(instr.op) {
            Route::Local(local) => {
                self.top.act(&mut store.heap, verified, local, instr);
                return Ok(Outcome::Goes);
            }
            Route::Make(make) => {
                self.top.make(verified, &mut store.heap, make, instr)?;
                return Ok(Outcome::Goes);
            }
            Route::Site(site) => {
                self.top.act_at(locality, site, instr);
                return Ok(Outcome::Goes);
            }
            Route::Export => {
                self.top.export(locality, &mut store.heap, instr)?;
                return Ok(Outcome::Goes);
            }
            Route::Region(inside) => {
                self.mark(inside);
                return Ok(Outcome::Goes);
            }
            Route::OpenFinish => {
                self.open_finish(store)?;
                return Ok(Outcome::Goes);
            }
            Route::CloseFinish => return Ok(self.close_finish(store)),
            Route::Return => return Ok(self.ret(verified, store, instr)),
            Route::Async => return Ok(Outcome::ForPlace(Deed::Begin, instr)),
            Route::At => return Ok(Outcome::ForPlace(Deed::Depart(Departure::At), instr)),
            Route::Ata => return Ok(Outcome::ForPlace(Deed::Depart(Departure::Ata), instr)),
            Route::Call => self.call(alloc, verified, store, instr),
            Route::Print => self.print(alloc, verified, store, instr),
        };
        match made {
            Ok(()) => Ok(Outcome::Goes),
            Err(_) => Err(Stop::Memory),
        }
    }
}
