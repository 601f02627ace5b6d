//! What each command does, given an image's bytes and a writer.
ghost use Rattle.std.specs.Prelude.{false, ◌≡◌, ◌≢◌, ◌⊎◌, ℕ, List, Option, IfOk, IfErr, OnOk, None, map};
ghost use Rattle.std.specs.Io.KnownBytes.{Appends, Keeps};
ghost use Rattle.std.specs.String.{string_bytes};
ghost use Rattle.x10_model.specs.Modules.{Module};
ghost use Rattle.x10_world.specs.Endings.{IsImageOf, lines_at};
ghost use Rattle.x10_world.specs.Opening.{IsForbidden, IsOpenedWorld};
ghost use Rattle.x10_world.specs.Rounds.{NoneIsLeft, RunsTo};
ghost use Rattle.x10_cli.specs.Lines.{all_lines};
ghost use Rattle.x10_task.specs.declared.task.Verb.TheVariants as verb;
ghost use Rattle.x10_cli.specs.declared.fault.Fault.TheVariants as fault;
ghost use Rattle.x10_cli.specs.Answers.{IsImage, IsListing, IsVerifiedImage, IsVerifying, IsOfModule, CanBeDone, IsStatus, IsDue, Prints, PrintsRuns, LeavesAsked, LeavesRefused, LeavesStopped, ShowsAsked, places_for, status_of};
ghost use Rattle.x10_cli.specs.Telling.{SaysFault, Tells, fault_line};

use crate::cause::print_section;
use crate::checking::print_check;
use crate::explain::explanation;
use crate::fault::Fault;
use crate::frame::print_frame;
use crate::lines::print_outputs;
use crate::runs::print_runs;
use crate::schedule::schedule_of;
use crate::shown::print_shown;
use crate::threads::print_threaded;
use std::alloc::{AllocError, Global};
use std::io::Write;
use std::sync::Wait;
use std::thread::Threads;
use x10_asm::{assemble, list};
use x10_bounds::bounds;
use x10_explain::{list_json, list_verbose};
use x10_image::ImageView;
use x10_schedule::{Schedule, run_by};
use x10_task::{Task, Verb};
use x10_verify::{Verified, verify};
use x10_world::World;

/// Does what a task asks for with the bytes of its file, and answers the exit status: 0 done, 1 refused, 2 stopped, 4 where a
/// write failed or a text isn't UTF-8. What is printed goes to `out`: for `asm` the image, and for `draw` the picture or the page. At
/// status 1 only a check has printed something, its report. A fault is one line on `err`, `x10p: ` and its text, and after it,
/// where the task says so, lines that explain it; at status 1 it is the fault that is due. At status 2 a run has printed what
/// it had printed until then, or nothing, and the other commands nothing; for a run with threads these are the lines of the
/// turns in its log, where the fault is `Turns` or a stop, and none where it is another. With threads it may wait: nothing is
/// promised about when, or whether, it returns then. `source` is the text from which the bytes of an image were assembled, if
/// they were: then explanations name its lines, and a listing for people its labels. For `explain` the bytes are the name of a
/// cause, for `frame` those of a frame, of which the task says how many places there are; without, it is the fault `file`. So it
/// is for an audit, which has a log beside its image and is `audit_logged`'s.
pub fn execute<R: Threads + Wait + Sync, O: Write, E: Write>(
    rt: &R,
    alloc: Global,
    task: &Task,
    bytes: &[u8],
    source: Option<&str>,
    out: &mut O,
    err: &mut E,
) -> u8
    ensures status { IsStatus result }
    ensures done { result ≡ 0 → CanBeDone task.now.verb task.now.places bytes.now }
    ensures printed { result ≡ 0 → Prints task.now.verb task.now.json task.now.places bytes.now
        (O.contents out.old) (O.contents out.new) }
    ensures counted { result ≡ 0 → task.now.verb ≡ verb.Runs
        → PrintsRuns task.now.places task.now.limit task.now.seeds bytes.now (O.contents out.old)
        (O.contents out.new) }
    ensures shown { result ≡ 0 → ShowsAsked task.now.verb task.now.window task.now.places bytes.now
        (O.contents out.old) (O.contents out.new) }
    ensures verified { result ≡ 0 → IsVerifying task.now.verb → IsVerifiedImage bytes.now }
    ensures refused { result ≡ 1 → CanBeDone task.now.verb task.now.places bytes.now → ⊥ }
    ensures left_refused { result ≡ 1 → LeavesRefused task.now.verb (O.contents out.old)
        (O.contents out.new) }
    ensures left_stopped { result ≡ 2 → LeavesStopped task.now.verb task.now.json task.now.threads
        task.now.places bytes.now (O.contents out.old) (O.contents out.new) }
    ensures left_shown { result ≡ 2 → LeavesAsked task.now.verb task.now.window task.now.places
        bytes.now (O.contents out.old) (O.contents out.new) }
    ensures told { (result ≡ 1) ⊎ (result ≡ 2) → Tells task.now.explain task.now.places bytes.now
        result (E.contents err.old) (E.contents err.new) }
{
    let done = perform(rt, alloc, task, bytes, source, out);
    if out.flush().is_err() {
        return tell(Fault::File, err);
    }
    match done {
        Ok(()) => 0,
        Err(fault) => refuse(alloc, task, bytes, source, b"", fault, err),
    }
}

/// Reports a fault, and what is asked for besides its line. Where there is no memory for that, its line has to do.
pub(crate) fn refuse<E: Write>(
    alloc: Global,
    task: &Task,
    bytes: &[u8],
    source: Option<&str>,
    log: &[u8],
    fault: Fault,
    err: &mut E,
) -> u8
    ensures status { (result ≡ status_of fault) ⊎ (result ≡ 4) }
    ensures told { result ≢ 4 → SaysFault task.now.explain fault (E.contents err.old)
        (E.contents err.new) }
{
    let status = tell(fault, err);
    if !task.explain {
        return status;
    }
    let Ok(text) = explanation(alloc, task, bytes, source, log, fault) else {
        return status;
    };
    match err.write_all(text.as_bytes()) {
        Ok(()) => status,
        Err(_) => Fault::File.status(),
    }
}

/// Reports a fault on a line, and answers the status that goes with it.
pub fn tell<E: Write>(fault: Fault, err: &mut E) -> u8
    ensures status { (result ≡ status_of fault) ⊎ (result ≡ 4) }
    ensures told { result ≢ 4 → Appends (E.contents err.old) (E.contents err.new)
        (fault_line fault) }
{
    match writeln!(err, "x10p: {fault}") {
        Ok(()) => fault.status(),
        Err(_) => Fault::File.status(),
    }
}

/// Does a task, and reports no fault of it.
fn perform<R: Threads + Wait + Sync, O: Write>(
    rt: &R,
    alloc: Global,
    task: &Task,
    bytes: &[u8],
    source: Option<&str>,
    out: &mut O,
) -> Result<(), Fault>
    ensures done { IfOk result (λ _. CanBeDone task.now.verb task.now.places bytes.now) }
    ensures printed { OnOk result (Prints task.now.verb task.now.json task.now.places bytes.now
        (O.contents out.old) (O.contents out.new)) }
    ensures counted { OnOk result (task.now.verb ≡ verb.Runs
        → PrintsRuns task.now.places task.now.limit task.now.seeds bytes.now (O.contents out.old)
        (O.contents out.new)) }
    ensures shown { OnOk result (ShowsAsked task.now.verb task.now.window task.now.places bytes.now
        (O.contents out.old) (O.contents out.new)) }
    ensures refused { IfErr result (λ e. status_of e ≡ 1
        → CanBeDone task.now.verb task.now.places bytes.now → ⊥) }
    ensures due { IfErr result (IsDue task.now.places bytes.now) }
    ensures left_refused { IfErr result (λ e. status_of e ≡ 1
        → LeavesRefused task.now.verb (O.contents out.old) (O.contents out.new)) }
    ensures left_stopped { IfErr result (λ e. status_of e ≡ 2
        → LeavesStopped task.now.verb task.now.json task.now.threads task.now.places bytes.now
        (O.contents out.old) (O.contents out.new)) }
    ensures left_shown { IfErr result (λ e. status_of e ≡ 2
        → LeavesAsked task.now.verb task.now.window task.now.places bytes.now
        (O.contents out.old) (O.contents out.new)) }
{
    match task.verb {
        Verb::Asm => print_image(alloc, bytes, out),
        Verb::List => print_listing(alloc, task, bytes, out),
        Verb::ListVerbose => print_verbose(alloc, bytes, source, out),
        Verb::Check => print_check(alloc, task, bytes, out),
        Verb::Verify => print_verdict(alloc, bytes, out),
        Verb::Bounds => print_bounds(alloc, bytes, out),
        Verb::Run if task.threads => print_threaded(rt, alloc, task, bytes, out),
        Verb::Run => print_run(alloc, task, bytes, out),
        Verb::Runs => print_runs(alloc, task, bytes, out),
        Verb::Audit => Err(Fault::File),
        Verb::Trace => print_shown(alloc, task, bytes, out),
        Verb::TraceVerbose => print_shown(alloc, task, bytes, out),
        Verb::Draw => print_shown(alloc, task, bytes, out),
        Verb::DrawPage => print_shown(alloc, task, bytes, out),
        Verb::Frame => print_frame(alloc, task.places, bytes, out),
        Verb::Explain => print_section(bytes, out),
    }
}

/// The view of an image.
pub fn image_of<'a>(alloc: Global, bytes: &'a [u8]) -> Result<ImageView<'a>, Fault>
    ensures found { IfOk result (IsImage bytes.now) }
    ensures due { (asked : Option ℕ) → IfErr result (IsDue asked bytes.now) }
    ensures refused { IfErr result (λ e. status_of e ≡ 1 → (m : Module) → IsImage bytes.now m → ⊥) }
    ensures kind { IfErr result IsOfModule }
{
    Ok(ImageView::read(alloc, bytes)?)
}

/// The module of an image, verified.
pub fn verified_in<'a>(alloc: Global, bytes: &'a [u8]) -> Result<Verified<'a>, Fault>
    ensures found { IfOk result (IsImageOf bytes.now) }
    ensures due { (asked : Option ℕ) → IfErr result (IsDue asked bytes.now) }
    ensures refused { IfErr result (λ e. status_of e ≡ 1 → IsVerifiedImage bytes.now → ⊥) }
    ensures kind { IfErr result IsOfModule }
{
    let image = image_of(alloc, bytes)?;
    Ok(verify(alloc, image)?)
}

/// The image that a text spells.
pub fn print_image<O: Write>(alloc: Global, bytes: &[u8], out: &mut O) -> Result<(), Fault>
    ensures done { IfOk result (λ _. CanBeDone verb.Asm None bytes.now) }
    ensures printed { OnOk result (Prints verb.Asm false None bytes.now (O.contents out.old)
        (O.contents out.new)) }
    ensures refused { IfErr result (λ e. status_of e ≡ 1 → CanBeDone verb.Asm None bytes.now → ⊥) }
    ensures due { (asked : Option ℕ) → IfErr result (IsDue asked bytes.now) }
    ensures kept { IfErr result (λ e. (e ≡ fault.File)
        ⊎ Keeps (O.contents out.old) (O.contents out.new)) }
{
    let Ok(text) = str::from_utf8(bytes) else {
        return Err(Fault::File);
    };
    out.write_all(&assemble(alloc, text)?)?;
    Ok(())
}

/// The canonical listing, or what JSON has of the module.
pub fn print_listing<O: Write>(
    alloc: Global,
    task: &Task,
    bytes: &[u8],
    out: &mut O,
) -> Result<(), Fault>
    ensures done { IfOk result (λ _. CanBeDone verb.List None bytes.now) }
    ensures printed { OnOk result (Prints verb.List task.now.json None bytes.now
        (O.contents out.old) (O.contents out.new)) }
    ensures refused { IfErr result (λ e. status_of e ≡ 1 → CanBeDone verb.List None bytes.now → ⊥) }
    ensures due { (asked : Option ℕ) → IfErr result (IsDue asked bytes.now) }
    ensures kept { IfErr result (λ e. (e ≡ fault.File)
        ⊎ Keeps (O.contents out.old) (O.contents out.new)) }
{
    let image = image_of(alloc, bytes)?;
    let listing = listing_of(alloc, task, &image)?;
    out.write_all(listing.as_bytes())?;
    Ok(())
}

fn listing_of(alloc: Global, task: &Task, image: &ImageView) -> Result<String, AllocError>
    ensures { IfOk result (λ s. IsListing task.now.json image.now (string_bytes s)) }
{
    if task.json {
        return list_json(alloc, image, task.input);
    }
    list(alloc, image)
}

/// The listing with what the verifier knows, and the labels of the text that the image was assembled from.
fn print_verbose<O: Write>(
    alloc: Global,
    bytes: &[u8],
    source: Option<&str>,
    out: &mut O,
) -> Result<(), Fault>
    ensures done { IfOk result (λ _. CanBeDone verb.ListVerbose None bytes.now) }
    ensures printed { OnOk result (Prints verb.ListVerbose false None bytes.now
        (O.contents out.old) (O.contents out.new)) }
    ensures refused { IfErr result (λ e. status_of e ≡ 1
        → CanBeDone verb.ListVerbose None bytes.now → ⊥) }
    ensures due { (asked : Option ℕ) → IfErr result (IsDue asked bytes.now) }
    ensures kept { IfErr result (λ e. (e ≡ fault.File)
        ⊎ Keeps (O.contents out.old) (O.contents out.new)) }
{
    let image = image_of(alloc, bytes)?;
    let listing = list_verbose(alloc, &image, source)?;
    out.write_all(listing.as_bytes())?;
    Ok(())
}

fn print_verdict<O: Write>(alloc: Global, bytes: &[u8], out: &mut O) -> Result<(), Fault>
    ensures done { IfOk result (λ _. IsVerifiedImage bytes.now) }
    ensures printed { OnOk result (Prints verb.Verify false None bytes.now (O.contents out.old)
        (O.contents out.new)) }
    ensures refused { IfErr result (λ e. status_of e ≡ 1 → IsVerifiedImage bytes.now → ⊥) }
    ensures due { (asked : Option ℕ) → IfErr result (IsDue asked bytes.now) }
    ensures kept { IfErr result (λ e. (e ≡ fault.File)
        ⊎ Keeps (O.contents out.old) (O.contents out.new)) }
{
    let verified = verified_in(alloc, bytes)?;
    let image = verified.image();
    let functions = image.functions();
    let bound = verified.bound(usize::from(image.entry()));
    writeln!(out, "verified {functions} functions, entry bound {bound}")?;
    Ok(())
}

fn print_bounds<O: Write>(alloc: Global, bytes: &[u8], out: &mut O) -> Result<(), Fault>
    ensures done { IfOk result (λ _. CanBeDone verb.Bounds None bytes.now) }
    ensures printed { OnOk result (Prints verb.Bounds false None bytes.now (O.contents out.old)
        (O.contents out.new)) }
    ensures refused { IfErr result (λ e. status_of e ≡ 1 → CanBeDone verb.Bounds None bytes.now
        → ⊥) }
    ensures due { (asked : Option ℕ) → IfErr result (IsDue asked bytes.now) }
    ensures kept { IfErr result (λ e. (e ≡ fault.File)
        ⊎ Keeps (O.contents out.old) (O.contents out.new)) }
{
    let image = image_of(alloc, bytes)?;
    let bounds = bounds(alloc, &image)?;
    for f in 0..bounds.len() {
        let bound = bounds[f];
        writeln!(out, "{f} {bound}")?;
    }
    Ok(())
}

/// Runs a module, and prints what its places printed, even where the run stops before its end.
pub fn print_run<O: Write>(
    alloc: Global,
    task: &Task,
    bytes: &[u8],
    out: &mut O,
) -> Result<(), Fault>
    ensures done { IfOk result (λ _. CanBeDone verb.Run task.now.places bytes.now) }
    ensures printed { OnOk result (Prints verb.Run task.now.json task.now.places bytes.now
        (O.contents out.old) (O.contents out.new)) }
    ensures refused { IfErr result (λ e. status_of e ≡ 1
        → CanBeDone verb.Run task.now.places bytes.now → ⊥) }
    ensures due { IfErr result (IsDue task.now.places bytes.now) }
    ensures refused_early { IfErr result (λ e. status_of e ≡ 1
        → Keeps (O.contents out.old) (O.contents out.new)) }
    ensures stopped { IfErr result (λ e. status_of e ≡ 2
        → LeavesStopped verb.Run task.now.json false task.now.places bytes.now
        (O.contents out.old) (O.contents out.new)) }
{
    let verified = verified_in(alloc, bytes)?;
    let mut world = opened(alloc, task.places, &verified)?;
    let schedule = schedule_of(task);
    print_scheduled(alloc, &mut world, schedule, task.limit, task.json, out)
}

/// The world in which a run begins, at as many places as were asked for.
pub(crate) fn opened<'a>(
    alloc: Global,
    asked: Option<u16>,
    verified: &'a Verified<'a>,
) -> Result<World<'a>, Fault>
    ensures opened { IfOk result (IsOpenedWorld verified.now (places_for asked verified.now)) }
    ensures permitted { IfOk result (λ _. IsForbidden verified.now (places_for asked verified.now)
        → ⊥) }
    ensures due { (bytes : List ℕ) → IsImageOf bytes verified.now
        → IfErr result (IsDue asked bytes) }
    ensures refused { (bytes : List ℕ) → IsImageOf bytes verified.now
        → IfErr result (λ e. status_of e ≡ 1 → CanBeDone verb.Run asked bytes → ⊥) }
    ensures kind { IfErr result (λ e. (e ≡ fault.Places) ⊎ (e ≡ fault.Memory)) }
{
    let places = places_of(asked, verified);
    let world = World::open(alloc, verified, places)?;
    Ok(world)
}

/// Makes the events of a program until the run has ended, at most `limit`, and prints what its places printed until then.
fn print_scheduled<O: Write>(
    alloc: Global,
    world: &mut World,
    schedule: Schedule,
    limit: u64,
    json: bool,
    out: &mut O,
) -> Result<(), Fault>
    ensures runs { RunsTo world.old world.new }
    ensures ended { OnOk result (NoneIsLeft world.new) }
    ensures printed { OnOk result (Appends (O.contents out.old) (O.contents out.new)
        (all_lines json 0 (lines_at world.new.places))) }
    ensures stopped { IfErr result (λ e. (e ≡ fault.File)
        ⊎ Keeps (O.contents out.old) (O.contents out.new)
        ⊎ Appends (O.contents out.old) (O.contents out.new)
        (all_lines json 0 (lines_at world.new.places))) }
    ensures status { IfErr result (λ e. status_of e ≢ 1) }
{
    let ended = run_by(alloc, world, schedule, limit);
    print_outputs(alloc, world, json, out)?;
    Ok(ended?)
}

/// How many places a run has.
pub(crate) fn places_of(asked: Option<u16>, verified: &Verified) -> u16
    ensures { result ≡ places_for asked verified.now }
{
    match asked {
        Some(places) => places,
        None => verified.image().least(),
    }
}
