//! What shows the events of a run: their lines, also with notes, a picture, or a page.
ghost use Rattle.std.specs.Prelude.{◌≡◌, ◌≢◌, ◌⊎◌, Bool, false, List, ℕ, IfOk, IfErr, OnOk, Ok, Err, []};
ghost use Rattle.std.specs.Io.KnownBytes.{Appends, Keeps};
ghost use Rattle.std.specs.String.{string_bytes};
ghost use Rattle.x10_draw.specs.Pages.{IsPage};
ghost use Rattle.x10_moments.specs.Pages.{page_end};
ghost use Rattle.x10_world.specs.Happenings.{HasDone};
ghost use Rattle.x10_world.specs.StandsForWorld.{WorldState};
ghost use Rattle.x10_cli.specs.declared.fault.Fault.TheVariants as fault;
ghost use Rattle.x10_cli.specs.Events.{ByPicture, IsMannerOf, IsNoted, IsTold};
ghost use Rattle.x10_cli.specs.Showing.{AppendsEnd, AppendsFront, Follows, manner_of};

use crate::fault::Fault;
use std::alloc::{AllocError, Global};
use std::io::Write;
use x10_draw::Drawing;
use x10_model::Event;
use x10_moments::{Recorder, begin_page, end_of_page};
use x10_notes::Notes;
use x10_task::Verb;
use x10_trace::trace_line;
use x10_verify::Verified;
use x10_world::{Done, World};

/// What shows the events of a run, one after another.
#[derive(Drop)]
pub(crate) enum Show<'a> {
    /// The lines of each.
    Lines,
    /// The same, with notes behind them.
    Noted(Notes<'a>),
    /// A picture, when all are noted.
    Picture(Drawing<'a>),
    /// A page: how it begins, a moment for each, and how it ends.
    Page(Recorder<'a>),
}

/// Begins to show a run as a command does, in the world behind so many events that aren't shown: prints how a page begins.
pub(crate) fn begin<'a, O: Write>(
    alloc: Global,
    verb: Verb,
    verified: &'a Verified<'a>,
    world: &World,
    before: u64,
    out: &mut O,
) -> Result<Show<'a>, Fault>
    ensures manner { IfOk result (λ s. IsMannerOf verb verified.now.program (manner_of s)) }
    ensures follows { IfOk result (λ s. Follows s world.now) }
    ensures front { IfOk result (λ s. AppendsFront (manner_of s) before world.now
        (O.contents out.old) (O.contents out.new)) }
    ensures err { IfErr result (λ e. (e ≡ fault.File) ⊎ ((e ≡ fault.Memory)
        × Keeps (O.contents out.old) (O.contents out.new))) }
{
    match verb {
        Verb::TraceVerbose => Ok(Show::Noted(Notes::new(alloc, verified)?)),
        Verb::Draw => Ok(Show::Picture(Drawing::new(alloc, verified, world, before)?)),
        Verb::DrawPage => begin_paged(alloc, verified, world, before, out),
        _ => Ok(Show::Lines),
    }
}

/// Prints how a page begins.
fn begin_paged<'a, O: Write>(
    alloc: Global,
    verified: &'a Verified<'a>,
    world: &World,
    before: u64,
    out: &mut O,
) -> Result<Show<'a>, Fault>
    ensures manner { IfOk result (λ s. IsMannerOf Verb.DrawPage verified.now.program
        (manner_of s)) }
    ensures follows { IfOk result (λ s. Follows s world.now) }
    ensures front { IfOk result (λ s. AppendsFront (manner_of s) before world.now
        (O.contents out.old) (O.contents out.new)) }
    ensures err { IfErr result (λ e. (e ≡ fault.File) ⊎ ((e ≡ fault.Memory)
        × Keeps (O.contents out.old) (O.contents out.new))) }
{
    let (recorder, text) = begin_page(alloc, verified, world, before)?;
    out.write_all(text.as_bytes())?;
    Ok(Show::Page(recorder))
}

impl<'a> Show<'a> {
    /// Notes what an event is going to change, in the world right before it.
    pub fn look(&mut self, world: &World, event: Event) -> Result<(), AllocError>
        ensures manner { manner_of self.new ≡ manner_of self.old }
        ensures follows { (x : WorldState) → Follows self.old x → Follows self.new x }
    {
        match self {
            Show::Noted(notes) => notes.look(world, event),
            Show::Lines | Show::Picture(_) | Show::Page(_) => Ok(()),
        }
    }

    /// What is told of an event, in the world right after it; for a picture nothing yet.
    pub fn tell(
        &mut self,
        alloc: Global,
        world: &World,
        event: Event,
        done: &Done,
    ) -> Result<String, AllocError>
        requires { (y : WorldState) × HasDone y event done.now world.now × Follows self.old y }
        ensures told { IfOk result (λ text. (y : WorldState) → HasDone y event done.now world.now
            → Follows self.old y
            → IsTold (manner_of self.old) y event done.now world.now (string_bytes text)) }
        ensures follows { IfOk result (λ _. (y : WorldState) → HasDone y event done.now world.now
            → Follows self.old y → Follows self.new world.now) }
        ensures manner { manner_of self.new ≡ manner_of self.old }
    {
        match self {
            Show::Lines => trace_line(alloc, world, event, done),
            Show::Noted(notes) => noted(alloc, notes, world, event, done),
            Show::Picture(drawing) => drawn(alloc, drawing, world, event, done),
            Show::Page(recorder) => recorder.next(world, event, done),
        }
    }

    /// Ends what was shown of events: prints the picture, or how the page ends.
    fn end<O: Write>(&self, ended: bool, out: &mut O) -> Result<(), Fault>
        ensures end { OnOk result (AppendsEnd (manner_of self.now) ended (O.contents out.old)
            (O.contents out.new)) }
        ensures err { IfErr result (λ e. (e ≡ fault.File) ⊎ ((e ≡ fault.Memory)
            × (manner_of self.now ≡ ByPicture)
            × Keeps (O.contents out.old) (O.contents out.new))) }
    {
        match self {
            Show::Picture(drawing) => print_drawn(drawing, out),
            Show::Page(_) => print_end(ended, out),
            Show::Lines | Show::Noted(_) => Ok(()),
        }
    }

    /// Ends what was shown of events, unless a write has failed, by whether the run ended with them; answers why there are no more.
    pub fn close<O: Write>(&self, ended: Result<bool, Fault>, out: &mut O) -> Result<(), Fault>
        ensures end { OnOk result ((e : Bool) × (ended ≡ Ok e)
            × AppendsEnd (manner_of self.now) e (O.contents out.old) (O.contents out.new)) }
        ensures err { IfErr result (λ e. (e ≡ fault.File) ⊎ ((e ≡ fault.Memory)
            × (manner_of self.now ≡ ByPicture) × (ended ≢ Err fault.File)
            × Keeps (O.contents out.old) (O.contents out.new))
            ⊎ ((ended ≡ Err e) × AppendsEnd (manner_of self.now) false (O.contents out.old)
            (O.contents out.new))) }
    {
        match ended {
            Ok(ended) => self.end(ended, out),
            Err(Fault::File) => Err(Fault::File),
            Err(fault) => {
                self.end(false, out)?;
                Err(fault)
            }
        }
    }
}

/// The lines of an event, and behind them the notes.
fn noted(
    alloc: Global,
    notes: &Notes,
    world: &World,
    event: Event,
    done: &Done,
) -> Result<String, AllocError>
    ensures { IfOk result (λ text. IsNoted event done.now world.now (string_bytes text)) }
{
    let mut text = trace_line(alloc, world, event, done)?;
    let notes = notes.notes(world, event, done)?;
    text.push_str(notes.as_str())?;
    Ok(text)
}

/// Notes an event for a picture.
fn drawn(
    alloc: Global,
    drawing: &mut Drawing,
    world: &World,
    event: Event,
    done: &Done,
) -> Result<String, AllocError>
    ensures { IfOk result (λ text. string_bytes text ≡ []) }
{
    drawing.note(world, event, done)?;
    Ok(String::new(alloc))
}

/// Prints a picture.
fn print_drawn<O: Write>(drawing: &Drawing, out: &mut O) -> Result<(), Fault>
    ensures page { OnOk result ((picture : List ℕ) × IsPage picture
        × Appends (O.contents out.old) (O.contents out.new) picture) }
    ensures err { IfErr result (λ e. (e ≡ fault.File) ⊎ ((e ≡ fault.Memory)
        × Keeps (O.contents out.old) (O.contents out.new))) }
{
    let picture = drawing.svg()?;
    out.write_all(picture.as_bytes())?;
    Ok(())
}

/// Prints how a page ends.
fn print_end<O: Write>(ended: bool, out: &mut O) -> Result<(), Fault>
    ensures end { OnOk result (Appends (O.contents out.old) (O.contents out.new)
        (page_end ended)) }
    ensures err { IfErr result (λ e. e ≡ fault.File) }
{
    let (word, tail) = end_of_page(ended);
    out.write_all(word.as_bytes())?;
    out.write_all(tail.as_bytes())?;
    Ok(())
}
