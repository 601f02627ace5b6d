//! An activity that comes from a place begins: a new one, or one that goes on here.
ghost use Rattle.std.specs.Prelude.{◌≡◌, ◌<◌, ◌≤◌, ℕ, IfErr, IfOk, OnErr, OnOk, List, length, slice_index};
ghost use Rattle.x10_model.specs.Marshalling.{snapshot_of};
ghost use Rattle.x10_model.specs.Modules.{Module, Function};
ghost use Rattle.x10_model.specs.declared.slot.Slot.{Slot};
ghost use Rattle.x10_frame.specs.Heads.{graph_of};
ghost use Rattle.x10_copy.specs.Arrived.{FitsArrival};
ghost use Rattle.x10_copy.specs.Taken.{IsTakenIn};
ghost use Rattle.x10_copy.specs.declared.refusal.Refusal.TheVariants as refusal;
ghost use Rattle.x10_place.specs.Arrivals.{Settles, IsUnsettled, MayBegin, IsEntrance, Launches, IsLaunchRefused};
ghost use Rattle.x10_place.specs.Frames.{IsEnteredWith};
ghost use Rattle.x10_place.specs.Stretches.{IsUntouched};

use crate::call_frame::CallFrame;
use crate::ground::Ground;
use crate::sending::parameters;
use crate::starting::MOST_KEYS;
use crate::stay::{Origin, Stay};
use crate::store::Store;
use std::alloc::Global;
use x10_copy::{Refusal, Roots, bring, check, refusal_of};
use x10_frame::FrameView;
use x10_image::SigView;
use x10_kinds::Limit;
use x10_model::Finish;
use x10_verify::Verified;

/// What begins: from which place it comes, the function, the finish under which it counts, and the stay that waits for its
/// result.
#[derive(Clone, Copy, Debug, PartialEq, Eq)]
pub(crate) struct Launch {
    pub(crate) from: u16,
    pub(crate) function: u16,
    pub(crate) under: Finish,
    pub(crate) back: Option<Origin>,
}

/// The signature of the function, if it may begin.
fn entrance<'a>(verified: &Verified<'a>, launch: &Launch) -> Result<SigView<'a>, Refusal>
    ensures ok { IfOk result (IsEntrance verified.now.program launch.now) }
    ensures err { IfErr result (λ why. (why ≡ refusal.Function) × ((callee : Function) → MayBegin
        verified.now.program launch.now callee → ⊥)) }
{
    verified.certificate();
    let image = verified.image();
    let function = usize::from(launch.function);
    if function >= image.functions() {
        return Err(Refusal::Function);
    }
    let signature = image.signature(function);
    if launch.back.is_none() && signature.result().is_some() {
        return Err(Refusal::Function);
    }
    Ok(signature)
}

/// Writes words to the first registers.
fn put_words(registers: &mut [u64], words: &[u64])
    requires { length words.now ≤ length registers.old }
    ensures arguments { (r : ℕ) → r < length words.now → slice_index registers.new r ≡ slice_index
        words.now r }
{
    registers[..words.len()].copy_from_slice(words);
}

/// The call frame goes to the first instruction of a function, with these words in its first registers.
fn enter(frame: &mut CallFrame, function: u16, words: &Roots)
    requires { length words.now.items ≤ length frame.old.registers.items }
    ensures { IsEnteredWith function (length frame.old.registers.items) words.now.items frame.new }
{
    frame.begin(function);
    put_words(frame.registers.as_mut_slice(), words.as_slice());
}

/// What the frame brings is put into the heap, and the activity is counted. Where either is refused, nothing has changed.
fn settle(
    alloc: Global,
    view: &FrameView,
    store: &mut Store,
    launch: &Launch,
) -> Result<Roots, Refusal>
    requires { launch.now.from < store.old.places }
    ensures ok { IfOk result (λ roots. Settles store.old (graph_of view.now) launch.now roots.items
        store.new) }
    ensures taken { IfOk result (λ roots. (m : Module) (here home : ℕ) (slots : List Slot) →
        FitsArrival m here home store.old.heap slots (snapshot_of (graph_of view.now)) → IsTakenIn m
        here store.old.heap slots view.now roots.items store.new.heap) }
    ensures err { IfErr result (λ why. (store.new ≡ store.old) × IsUnsettled store.old (graph_of
        view.now) launch.now why) }
{
    let (objects, rails, texts) = (store.heap.objects(), store.heap.rails(), store.heap.texts());
    let roots = bring(alloc, view, &mut store.heap)?;
    if let Err(why) = store.come(launch.under, launch.from) {
        store.heap.truncate(objects, rails, texts);
        return Err(refusal_of(why));
    }
    Ok(roots)
}

impl<'a> Ground<'a> {
    /// An activity begins with what a frame brings. Where it is refused, nothing has changed.
    pub(crate) fn launch(&mut self, view: &FrameView, launch: Launch) -> Result<(), Refusal>
        requires { launch.from < self.old.store.places }
        ensures ok { OnOk result (Launches self.old.verified.now.program self.old.stays
            self.old.store view.now launch self.new.stays self.new.store) }
        ensures err { OnErr result (IsUntouched self.old.stays self.old.store self.new.stays
            self.new.store) }
        ensures refused { IfErr result (IsLaunchRefused self.old.verified.now.program self.old.stays
            self.old.store view.now launch) }
        ensures verified { self.new.verified.now ≡ self.old.verified.now }
    {
        let verified = self.verified;
        let signature = entrance(verified, &launch)?;
        let slots = parameters(&signature);
        let slots = &slots[..signature.parameters()];
        let here = self.store.locality().here;
        check(view, &self.store.heap, verified.image(), here, here, slots)?;
        if !self.store.is_open(launch.under) {
            return Err(Refusal::Finish);
        }
        if self.stays.vacant_key() > MOST_KEYS {
            return Err(Refusal::Limit(Limit::Keys));
        }
        self.stays.reserve(1)?;
        let mut top = self
            .store
            .frame(self.alloc, usize::from(signature.registers()))?;
        let roots = settle(self.alloc, view, &mut self.store, &launch)?;
        enter(&mut top, launch.function, &roots);
        self.stays.insert_reserved(Stay {
            top,
            callers: Vec::new(self.alloc),
            finishes: Vec::new(self.alloc),
            inherited: launch.under,
            away: false,
            inside: false,
            back: launch.back,
        });
        Ok(())
    }
}
