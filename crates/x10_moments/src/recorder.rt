//! The moments of a run, one after another.
ghost use Rattle.std.specs.Prelude.{◌≡◌, ◌<◌, ◌∷◌, [], ◌++◌, IfOk, IfSome, OnOk, Some, length, slice_get, slice_index_or};
ghost use Rattle.std.specs.String.{string_bytes};
ghost use Rattle.x10_place.specs.StandsFor.{PlaceState};
ghost use Rattle.x10_states.specs.Json.{comma, json};
ghost use Rattle.x10_states.specs.Kinds.{AreLeast};
ghost use Rattle.x10_states.specs.Parts.{ArePartsOf};
ghost use Rattle.x10_world.specs.Happenings.{HasDone};
ghost use Rattle.x10_world.specs.StandsForWorld.{WorldState};
ghost use Rattle.x10_moments.specs.Moments.{AreShown, IsShown, Shown, changed_place, changed_text, event_part, first_moment, first_places, next_moment, nothing, place_text, places_part, posts_part, posts_text};
ghost use Rattle.x10_moments.specs.Pages.{counts_part, data_front, flights_part, listing_part, page_front};
ghost use Rattle.x10_moments.specs.Recorders.{IsBegun, Updates};

use crate::parts::{no_parts, push_changed_place, push_place};
use crate::posts::{push_flights, push_posts};
use std::alloc::{AllocError, Global};
use std::fmt::Write;
use std::marker::Model;
use x10_asm::list;
use x10_image::ImageView;
use x10_model::Event;
use x10_page::HEAD;
use x10_states::{Kinds, Parts, parts_of, push_comma, push_json};
use x10_trace::trace_line;
use x10_verify::Verified;
use x10_world::{Done, World};

/// What makes the moments of a run as text: it keeps what each place showed last.
#[derive(Drop)]
pub struct Recorder<'a> {
    alloc: Global,
    verified: &'a Verified<'a>,
    kinds: Kinds,
    places: Vec<Parts>,
}

impl<'a> Model for Recorder<'a> {
    ghost use Rattle.std.specs.Prelude.{map};
    ghost use Rattle.x10_moments.specs.Moments.{shown_by};
    ghost use Rattle.x10_moments.specs.Recorders.{RecorderState};

    ghost Value = { RecorderState };

    ghost view = { λ a. record { program = a.verified.now.program; kinds = a.kinds; places = map shown_by a.places.items } };
}

/// Begins a page of a run of a verified module, in the world before the first event that it shows, and answers what will make the
/// moments after it, and how the page begins, the first moment included. `before` is how many events of the run were made until
/// then. Linear in what the places hold and in how many frames were put out; takes 0.4 kB for each instruction of the module.
pub fn begin_page<'a>(
    alloc: Global,
    verified: &'a Verified<'a>,
    world: &World,
    before: u64,
) -> Result<(Recorder<'a>, String), AllocError>
    ensures { IfOk result (λ x. IsBegun verified.now.program world.now before x.0
        (string_bytes x.1)) }
{
    let mut recorder = Recorder::new(alloc, verified)?;
    let text = recorder.begin(world, before)?;
    Ok((recorder, text))
}

/// The place that an event changed.
fn changed(event: Event, done: &Done) -> Option<u16>
    ensures { result ≡ changed_place event done.now }
{
    match (event, *done) {
        (Event::Step(place, _), Done::Moved { .. }) => Some(place),
        (Event::Deliver(_), Done::Taken { to }) => Some(to),
        _ => None,
    }
}

/// Pushes a text in quotes, behind a name.
fn push_named(text: &mut String, name: &str, value: &str) -> Result<(), AllocError>
    ensures { OnOk result (string_bytes text.new
        ≡ string_bytes text.old ++ (name.now ++ json value.now)) }
{
    text.push_str(name)?;
    push_json(text, value)
}

/// Pushes how many places there are, and how many events were made before.
#[tactic(auto, unfolding(crate::specs::Pages::counts_part))]
fn push_counts(text: &mut String, places: u16, before: u64) -> Result<(), AllocError>
    ensures { OnOk result (string_bytes text.new
        ≡ string_bytes text.old ++ counts_part places before) }
{
    write!(text, ",\"places\":{places},\"before\":{before}")
}

/// Pushes the frames in flight, behind their name, and how the moments begin.
#[tactic(auto, unfolding(crate::specs::Pages::flights_part))]
fn push_flights_part(alloc: Global, text: &mut String, world: &World) -> Result<(), AllocError>
    ensures { OnOk result (string_bytes text.new ≡ string_bytes text.old
        ++ flights_part (length world.now.places) world.now.flights) }
{
    text.push_str(",\"flights\":")?;
    push_flights(alloc, text, world)?;
    text.push_str(",\"moments\":[\n")?;
    Ok(())
}

impl<'a> Recorder<'a> {
    /// Before a run of a verified module. Takes 0.4 kB for each of its instructions.
    fn new(alloc: Global, verified: &'a Verified<'a>) -> Result<Recorder<'a>, AllocError>
        ensures least { IfOk result (λ r. AreLeast r.program r.kinds) }
        ensures program { IfOk result (λ r. r.program ≡ verified.now.program) }
        ensures places { IfOk result (λ r. r.places ≡ []) }
    {
        let kinds = Kinds::new(alloc, verified)?;
        Ok(Recorder {
            alloc,
            verified,
            kinds,
            places: Vec::new(alloc),
        })
    }

    /// How a page begins, and what the places of a world show. Linear in what they hold and in how many frames were put out.
    fn begin(&mut self, world: &World, before: u64) -> Result<String, AllocError>
        requires { self.old.places ≡ [] }
        ensures text { IfOk result (λ text. string_bytes text
            ≡ page_front self.old.program (length world.now.places) before world.now.flights
            ++ first_moment self.new.places) }
        ensures places { IfOk result (λ _. AreShown self.old.program self.old.kinds
            world.now.places self.new.places) }
        ensures program { self.new.program ≡ self.old.program }
        ensures kinds { self.new.kinds ≡ self.old.kinds }
    {
        let mut text = String::from_str(self.alloc, HEAD)?;
        self.push_front(&mut text, world, before)?;
        self.push_first_moment(&mut text, world)?;
        Ok(text)
    }
}

impl<'a> Recorder<'a> {
    /// The module's image.
    fn image(&self) -> &ImageView<'a>
        ensures { result.now ≡ self.now.program }
    {
        self.verified.image()
    }

    /// Pushes the module's listing, behind its name.
    #[tactic(auto, unfolding(crate::specs::Pages::listing_part))]
    fn push_listing(&self, text: &mut String) -> Result<(), AllocError>
        ensures { OnOk result (string_bytes text.new
            ≡ string_bytes text.old ++ listing_part self.now.program) }
    {
        let listing = list(self.alloc, self.image())?;
        push_named(text, "{\"listing\":", &listing)
    }

    /// Pushes how the data begin.
    #[tactic(auto, unfolding(crate::specs::Pages::data_front))]
    fn push_front(&self, text: &mut String, world: &World, before: u64) -> Result<(), AllocError>
        ensures { OnOk result (string_bytes text.new ≡ string_bytes text.old
            ++ data_front self.now.program (length world.now.places) before world.now.flights) }
    {
        self.push_listing(text)?;
        push_counts(text, world.count(), before)?;
        push_flights_part(self.alloc, text, world)
    }

    /// What a place of a world shows.
    fn shown(&self, world: &World, id: u16) -> Result<Parts, AllocError>
        ensures { (p : PlaceState) → slice_get world.now.places id ≡ Some p
            → IfOk result (ArePartsOf self.now.program self.now.kinds p) }
    {
        match world.place(id) {
            Some(place) => parts_of(self.alloc, self.image(), &self.kinds, place),
            None => Ok(no_parts(self.alloc)),
        }
    }

    /// Pushes what the next place of a world shows, and keeps it.
    fn push_first(&mut self, text: &mut String, world: &World, id: u16) -> Result<(), AllocError>
        ensures added { OnOk result ((s : Shown)
            × ((p : PlaceState) → slice_get world.now.places id ≡ Some p
            → IsShown self.old.program self.old.kinds p s)
            × (self.new.places ≡ self.old.places ++ s ∷ [])
            × (string_bytes text.new ≡ string_bytes text.old ++ (comma id
            ++ place_text id nothing s))) }
        ensures program { self.new.program ≡ self.old.program }
        ensures kinds { self.new.kinds ≡ self.old.kinds }
    {
        let parts = self.shown(world, id)?;
        push_comma(text, usize::from(id))?;
        push_place(text, id, &no_parts(self.alloc), &parts)?;
        self.places.push(parts)?;
        Ok(())
    }

    /// Pushes what all places of a world show, and keeps it.
    #[tactic(auto, using(crate::proofs::Moments::all_shown))]
    fn push_places(&mut self, text: &mut String, world: &World) -> Result<(), AllocError>
        requires { self.old.places ≡ [] }
        ensures text { OnOk result (string_bytes text.new
            ≡ string_bytes text.old ++ first_places 0 self.new.places) }
        ensures places { OnOk result (AreShown self.old.program self.old.kinds world.now.places
            self.new.places) }
        ensures program { self.new.program ≡ self.old.program }
        ensures kinds { self.new.kinds ≡ self.old.kinds }
    {
        for id in 0..world.count() {
            self.push_first(text, world, id)?;
        }
        Ok(())
    }

    /// Pushes the first moment: what all places of a world show, which is kept.
    #[tactic(auto, unfolding(crate::specs::Moments::first_moment))]
    fn push_first_moment(&mut self, text: &mut String, world: &World) -> Result<(), AllocError>
        requires { self.old.places ≡ [] }
        ensures text { OnOk result (string_bytes text.new
            ≡ string_bytes text.old ++ first_moment self.new.places) }
        ensures places { OnOk result (AreShown self.old.program self.old.kinds world.now.places
            self.new.places) }
        ensures program { self.new.program ≡ self.old.program }
        ensures kinds { self.new.kinds ≡ self.old.kinds }
    {
        text.push_str("{\"event\":\"\",\"places\":[")?;
        self.push_places(text, world)?;
        text.push_str("],\"posts\":[]}")
    }

    /// Pushes how what the named place of a world shows changed, and keeps it.
    fn push_changed(
        &mut self,
        text: &mut String,
        world: &World,
        place: Option<u16>,
    ) -> Result<(), AllocError>
        requires kept { IfSome place (λ id. id < length self.old.places) }
        requires there { IfSome place (λ id. id < length world.now.places) }
        ensures text { OnOk result (string_bytes text.new ≡ string_bytes text.old
            ++ changed_text place self.old.places self.new.places) }
        ensures places { OnOk result (Updates self.old.program self.old.kinds world.now place
            self.old.places self.new.places) }
        ensures program { self.new.program ≡ self.old.program }
        ensures kinds { self.new.kinds ≡ self.old.kinds }
    {
        let Some(id) = place else {
            return text.push_str("[]");
        };
        let parts = self.shown(world, id)?;
        push_changed_place(text, &mut self.places, id, parts)
    }
}

/// Pushes the lines of an event, behind their name.
#[tactic(auto, unfolding(crate::specs::Moments::event_part))]
fn push_event_part(text: &mut String, lines: &str) -> Result<(), AllocError>
    ensures { OnOk result (string_bytes text.new
        ≡ string_bytes text.old ++ event_part lines.now) }
{
    push_named(text, "{\"event\":", lines)
}

/// Pushes the frames that an event put out, behind their name, and how a moment ends.
#[tactic(auto, unfolding(crate::specs::Moments::posts_part))]
fn push_posts_part(
    alloc: Global,
    text: &mut String,
    world: &World,
    done: &Done,
) -> Result<(), AllocError>
    ensures { OnOk result (string_bytes text.new ≡ string_bytes text.old
        ++ posts_part (posts_text (length world.now.places) world.now.flights done.now)) }
{
    text.push_str(",\"posts\":")?;
    push_posts(alloc, text, world, done)?;
    text.push_str("}")
}

impl<'a> Recorder<'a> {
    /// Pushes how what the named place of a world shows changed, behind its name, and keeps it.
    #[tactic(auto, unfolding(crate::specs::Moments::places_part))]
    fn push_places_part_of(
        &mut self,
        text: &mut String,
        world: &World,
        place: Option<u16>,
    ) -> Result<(), AllocError>
        requires kept { IfSome place (λ id. id < length self.old.places) }
        requires there { IfSome place (λ id. id < length world.now.places) }
        ensures text { OnOk result (string_bytes text.new ≡ string_bytes text.old
            ++ places_part (changed_text place self.old.places self.new.places)) }
        ensures places { OnOk result (Updates self.old.program self.old.kinds world.now place
            self.old.places self.new.places) }
        ensures program { self.new.program ≡ self.old.program }
        ensures kinds { self.new.kinds ≡ self.old.kinds }
    {
        text.push_str(",\"places\":")?;
        self.push_changed(text, world, place)
    }

    /// The moment after an event, in the world right after it, with a comma and a line feed before it. Linear in what the place
    /// of the event holds, and in the frames that it put out.
    pub fn next(&mut self, world: &World, event: Event, done: &Done) -> Result<String, AllocError>
        requires { (y : WorldState) × HasDone y event done.now world.now
            × AreShown self.old.program self.old.kinds y.places self.old.places }
        ensures told { IfOk result (λ text. string_bytes text ≡ 44 ∷ 10
            ∷ next_moment self.old.places self.new.places event done.now world.now) }
        ensures places { IfOk result (λ _. (y : WorldState) → HasDone y event done.now world.now
            → AreShown self.old.program self.old.kinds y.places self.old.places
            → AreShown self.old.program self.old.kinds world.now.places self.new.places) }
        ensures program { self.new.program ≡ self.old.program }
        ensures kinds { self.new.kinds ≡ self.old.kinds }
    {
        let lines = trace_line(self.alloc, world, event, done)?;
        let mut text = String::from_str(self.alloc, ",\n")?;
        push_event_part(&mut text, &lines)?;
        self.push_places_part_of(&mut text, world, changed(event, done))?;
        push_posts_part(self.alloc, &mut text, world, done)?;
        Ok(text)
    }
}
