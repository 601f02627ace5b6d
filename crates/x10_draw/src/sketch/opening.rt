//! How a drawing begins: with the stays that live in a world, and the frames that are in flight.
use crate::columns::Column;
use crate::known::Known;
use crate::legend::NOTHING;
use crate::parts::{Point, point_of};
use crate::sketch::Sketch;
use crate::table::{Shape, Tone};
use crate::template::Pushed;
use std::alloc::{AllocError, Global};
use x10_place::{Place, Stay};
use x10_verify::Verified;
use x10_world::World;

/// What a stay that lives is doing, as far as it shows.
fn doing_of(stay: &Stay) -> Shape {
    match (stay.is_away(), stay.is_inside()) {
        (true, _) => Shape::Away,
        (_, true) => Shape::Inside,
        _ => Shape::Working,
    }
}

/// The stay of its own place that waits for the stay with a key.
fn waiting_for(place: &Place, key: usize) -> Option<usize> {
    let origin = place.stay(key)?.back()?;
    if origin.place == place.id() {
        Some(origin.key as usize)
    } else {
        None
    }
}

impl<'a> Sketch<'a> {
    /// The drawing of a run from a world on, after so many events. Where there are many places, fewer steps in a row that put
    /// nothing out have rows of their own, and a value or a line of output has fewer letters in a label, so that the picture
    /// stays narrow and short.
    pub(crate) fn new(
        alloc: Global,
        verified: &'a Verified<'a>,
        world: &World,
        before: u64,
    ) -> Result<Sketch<'a>, AllocError> {
        let (shown, letters) = if world.count() <= 4 { (8, 28) } else { (3, 16) };
        let mut sketch = Sketch {
            known: Known::new(alloc, verified, letters)?,
            before,
            first: world.posted(),
            flights: Vec::new(alloc),
            seen: NOTHING,
            columns: Vec::new(alloc),
            bars: Vec::new(alloc),
            finishes: Vec::new(alloc),
            ends: Vec::new(alloc),
            forks: Vec::new(alloc),
            arrows: Vec::new(alloc),
            labels: Vec::new(alloc),
        };
        sketch.open(world, shown)?;
        Ok(sketch)
    }

    /// All that is there at the beginning.
    fn open(&mut self, world: &World, shown: u64) -> Pushed {
        for number in 0..world.count() {
            let column = Column::new(self.known.alloc, number, shown)?;
            self.columns.push(column)?;
            if let Some(place) = world.place(number) {
                self.settle(place)?;
            }
            self.fly(world, number)?;
            self.expect(world, number);
        }
        if self.before > 0 || !world.has_key(0, 0) {
            return Ok(());
        }
        self.label_main(world, point_of(0, 0, 0))
    }

    /// The label of main.
    fn label_main(&mut self, world: &World, at: Point) -> Pushed {
        let mut words = String::new(self.known.alloc);
        self.known.push_begins(&mut words, "main: ", world, at)?;
        self.label(at, Tone::Notable, 0, &words, "")
    }

    /// The stays that live at a place.
    fn settle(&mut self, place: &Place) -> Pushed {
        let keys = place.keys(self.known.alloc)?;
        self.settle_all(place, &keys)
    }

    /// The stays with some keys. One that waits for a stay of its own place goes on beside it.
    fn settle_all(&mut self, place: &Place, keys: &[usize]) -> Pushed {
        for key in keys {
            self.begin_living(place, *key)?;
        }
        for key in keys {
            if let Some(waiting) = waiting_for(place, *key) {
                self.change(point_of(place.id(), waiting, 0), Some(Shape::Beside))?;
            }
        }
        Ok(())
    }

    /// A stay that lives, with the finishes that it has open, and where it stands.
    fn begin_living(&mut self, place: &Place, key: usize) -> Pushed {
        let at = point_of(place.id(), key, 0);
        let column = self.columns.get_mut(usize::from(at.place));
        let (Some(stay), Some(column)) = (place.stay(key), column) else {
            return Ok(());
        };
        column.begin(at, doing_of(stay))?;
        for finish in stay.finishes() {
            self.push_finish(at, *finish)?;
        }
        if self.before == 0 {
            return Ok(());
        }
        let (function, pc) = (stay.frame().function(), stay.frame().pc());
        let words = format!(in self.known.alloc; "stands at {function}:{pc}")?;
        self.label(at, Tone::Standing, 0, &words, "")
    }

    /// The frames that are in flight to a place. Where one goes to its own place, the stay that waits goes on beside another one.
    fn fly(&mut self, world: &World, place: u16) -> Pushed {
        let first = self.arrows.len();
        let mut from = 0u64;
        for _ in 0..world.posted() {
            let Some(number) = world.next_frame(place, from) else {
                break;
            };
            from = number.saturating_add(1);
            self.fly_one(world, number)?;
        }
        if let Some(column) = self.columns.get_mut(usize::from(place)) {
            column.flights = (first, self.arrows.len());
        }
        Ok(())
    }

    /// A frame that is in flight.
    fn fly_one(&mut self, world: &World, number: u64) -> Pushed {
        let Some(arrow) = self.add_arrow(world, None, number)? else {
            return Ok(());
        };
        self.flights.push(number)?;
        match arrow.other {
            Some(key) if arrow.from.place == arrow.to.place => {
                self.change(point_of(arrow.to.place, key, 0), Some(Shape::Beside))
            }
            _ => Ok(()),
        }
    }
}
