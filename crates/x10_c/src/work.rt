//! What the calls do, into a text that has memory of its own.
ghost use Rattle.std.specs.Prelude.{◌≡◌, ◌++◌, [], Ok, None, Some, IfOk, IfErr, List, ℕ, false};
ghost use Rattle.std.specs.Io.KnownBytes.{Appends};
ghost use Rattle.x10_model.specs.Modules.{Module};
ghost use Rattle.x10_model.specs.Structure.{bounds_of};
ghost use Rattle.x10_cli.specs.Answers.{CanBeDone, IsDue, IsImage, IsVerifiedImage, status_of};
ghost use Rattle.x10_cli.specs.Telling.{fault_line};
ghost use Rattle.x10_task.specs.declared.task.Verb.TheVariants as verb;
ghost use Rattle.x10_c.specs.Calls.{Came, IsBounded, asked_of};
ghost use Rattle.x10_c.specs.Settling.{Settles};

use std::alloc::Global;
use std::io::{self, Write};
use x10_bounds::bounds;
use x10_cli::{
    Fault, image_of, is_image, print_check, print_image, print_listing, print_run, verified_in,
};
use x10_task::{Color, Schedule, Task, Verb, Window};

/// Whether the bytes are the image of a module that the verifier accepts.
pub fn verified(alloc: Global, image: &[u8]) -> Result<(), Fault>
    ensures found { IfOk result (λ _. IsVerifiedImage image.now) }
    ensures refused { IfErr result (λ e. status_of e ≡ 1 → IsVerifiedImage image.now → ⊥) }
    ensures due { IfErr result (IsDue None image.now) }
{
    match verified_in(alloc, image) {
        Ok(_) => Ok(()),
        Err(fault) => Err(fault),
    }
}

/// How many steps each function of an image takes at most.
pub fn bounded(alloc: Global, image: &[u8]) -> Result<Vec<u64>, Fault>
    ensures found { IfOk result (λ found. IsBounded image.now found.items) }
    ensures refused { IfErr result (λ e. status_of e ≡ 1
        → CanBeDone verb.Bounds None image.now → ⊥) }
    ensures due { IfErr result (IsDue None image.now) }
{
    let image = image_of(alloc, image)?;
    Ok(bounds(alloc, &image)?)
}

/// The line of a fault, as the program prints it.
pub fn line_of(alloc: Global, fault: Fault) -> io::Result<Vec<u8>>
    ensures { IfOk result (λ text. text.items ≡ fault_line fault) }
{
    let mut text = Vec::new(alloc);
    writeln!(text, "x10p: {fault}")?;
    Ok(text)
}

/// The image of a text.
pub fn assembled(alloc: Global, bytes: &[u8], text: &mut Vec<u8>) -> Result<(), Fault>
    requires empty { text.old.items ≡ [] }
    ensures { Came verb.Asm None bytes.now result text.new.items }
{
    if str::from_utf8(bytes).is_err() {
        return Err(Fault::File);
    }
    let done = print_image(alloc, bytes, text);
    settled(done, text)
}

/// The canonical listing of an image.
pub fn listed(alloc: Global, image: &[u8], text: &mut Vec<u8>) -> Result<(), Fault>
    requires empty { text.old.items ≡ [] }
    ensures { Came verb.List None image.now result text.new.items }
{
    let done = print_listing(alloc, &task(Verb::List, None, 0), image, text);
    settled(done, text)
}

/// The report about a text or an image.
pub fn checked(alloc: Global, bytes: &[u8], text: &mut Vec<u8>) -> Result<(), Fault>
    requires empty { text.old.items ≡ [] }
    ensures { Came verb.Check None bytes.now result text.new.items }
{
    if !is_image(bytes) && str::from_utf8(bytes).is_err() {
        return Err(Fault::File);
    }
    let done = print_check(alloc, &task(Verb::Check, None, 0), bytes, text);
    settled(done, text)
}

/// The lines of a run, place by place.
pub fn ran(
    alloc: Global,
    image: &[u8],
    places: u16,
    limit: u64,
    text: &mut Vec<u8>,
) -> Result<(), Fault>
    requires empty { text.old.items ≡ [] }
    ensures { Came verb.Run (asked_of places) image.now result text.new.items }
{
    let task = task(Verb::Run, asked(places), limit);
    let done = print_run(alloc, &task, image, text);
    settled(done, text)
}

fn asked(places: u16) -> Option<u16>
    ensures { result ≡ asked_of places }
{
    if places == 0 { None } else { Some(places) }
}

/// A task for people, in one thread, round after round.
fn task(verb: Verb, places: Option<u16>, limit: u64) -> Task<'static>
    ensures verb { result.verb ≡ verb }
    ensures places { result.places ≡ places }
    ensures json { result.json ≡ false }
{
    Task {
        verb,
        input: "",
        output: None,
        log: None,
        places,
        limit,
        schedule: Schedule::Rounds,
        seed: None,
        seeds: 1,
        window: Window::all(),
        threads: false,
        json: false,
        stats: false,
        activities: false,
        explain: false,
        color: Color::Never,
    }
}

/// What came of a command that wrote to memory: there a write fails only where memory is refused, and then nothing is left.
fn settled(done: Result<(), Fault>, text: &mut Vec<u8>) -> Result<(), Fault>
    ensures { Settles done text.old.items result text.new.items }
{
    if done == Err(Fault::File) {
        text.clear();
        return Err(Fault::Memory);
    }
    done
}
