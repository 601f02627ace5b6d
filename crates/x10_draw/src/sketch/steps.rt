//! What a drawing notes of a step: the stay that it begins, the finish that it opens or closes, the frames that it puts out.
use crate::parts::{Part, Point, lifeline, part_of};
use crate::rows::Row;
use crate::sketch::{SHORTENED, Sketch};
use crate::table::{Shape, Tone};
use crate::template::Pushed;
use std::alloc::AllocError;
use x10_code::{Group, Op, group};
use x10_frame::{FrameFault, FrameView, What};
use x10_world::{Done, World};

/// A step that moved: where it is drawn and how, and its instruction.
#[derive(Clone, Copy)]
pub(crate) struct Step {
    pub(crate) at: Point,
    pub(crate) tone: Tone,
    pub(crate) function: u16,
    pub(crate) pc: u16,
    pub(crate) op: Op,
    /// Whether its stay lives after it.
    pub(crate) lives: bool,
    /// Where the stay is that it began.
    pub(crate) began: Option<Point>,
    /// The number of the finish that it opened or closed.
    pub(crate) finish: Option<u64>,
}

/// How a step is shown: its own stay alone can notice one that puts nothing out and ends no stay, but for some operations.
fn tone_of(op: Op, lives: bool, count: u64) -> Tone {
    match op {
        Op::Print => Tone::Printed,
        _ if lives && count == 0 && group(op) != Group::Activities => Tone::Quiet,
        _ => Tone::Notable,
    }
}

impl<'a> Sketch<'a> {
    /// A step that moved, and the frames that it put out.
    pub(crate) fn moved(&mut self, world: &World, at: Point, done: Done) -> Pushed {
        let Done::Moved {
            function,
            pc,
            op,
            first,
            count,
        } = done
        else {
            return Ok(());
        };
        let lives = world.has_key(at.place, at.lane.saturating_sub(1));
        let mut step = Step {
            at,
            tone: tone_of(op, lives, count),
            function,
            pc,
            op,
            lives,
            began: None,
            finish: None,
        };
        let Some(row) = self.row_of(step, count)? else {
            return Ok(());
        };
        step.at.row = row.number();
        if let Row::Own(_) = row {
            step.at.label = Some(self.labels.len());
        }
        match op {
            Op::Async => step.began = self.fork(world, step.at)?,
            Op::Finb => step.finish = self.open_finish(world, step.at)?,
            Op::Fine => step.finish = self.close_finish(step.at),
            _ => {}
        }
        let sent = self.arrows.len();
        for number in first..first.saturating_add(count) {
            self.post(world, step.at, number)?;
        }
        if !lives {
            self.end(step.at)?;
        }
        match row {
            Row::Own(_) => self.label_step(world, step, 0, sent),
            Row::Opened(_) => self.label_step(world, step, 1, sent),
            Row::Shared(_, label) => self.share(label),
        }
    }

    /// The row of a step that put `count` frames out. A stay that lives and wasn't seen to begin, begins at the last row.
    fn row_of(&mut self, step: Step, count: u64) -> Result<Option<Row>, AllocError> {
        let Some(column) = self.columns.get_mut(usize::from(step.at.place)) else {
            return Ok(None);
        };
        let doing = column.lane(step.at).doing();
        if step.lives && doing.is_none() {
            let row = column.rows.last;
            column.begin(Point { row, ..step.at }, Shape::Working)?;
        }
        let (quiet, local) = match step.tone {
            Tone::Quiet => (true, true),
            Tone::Printed => (false, false),
            _ => (false, count == 0),
        };
        let row = column.rows.step(quiet, local, self.labels.len());
        let after = match (step.op, doing) {
            (Op::Atomb, _) => Shape::Inside,
            (Op::Atome, _) => Shape::Working,
            (_, Some(Shape::Inside)) => Shape::Inside,
            _ => Shape::Working,
        };
        self.change(
            Point {
                row: row.number(),
                ..step.at
            },
            Some(after),
        )?;
        Ok(Some(row))
    }

    /// A stay begins beside the one that started it. Answers where.
    fn fork(&mut self, world: &World, from: Point) -> Result<Option<Point>, AllocError> {
        let Some(at) = self.begin(world, from.place, from.row)? else {
            return Ok(None);
        };
        self.seen.see(Shape::Async);
        self.forks.push(part_of(Shape::Async, from, at))?;
        Ok(Some(at))
    }

    /// A stay opens a finish. Answers its number.
    fn open_finish(&mut self, world: &World, at: Point) -> Result<Option<u64>, AllocError> {
        let Some(place) = world.place(at.place) else {
            return Ok(None);
        };
        let Some(stay) = place.stay(at.lane.saturating_sub(1)) else {
            return Ok(None);
        };
        let Some(number) = stay.finishes().last() else {
            return Ok(None);
        };
        self.push_finish(at, *number)?;
        Ok(Some(u64::from(*number)))
    }

    /// The finish that a stay has opened.
    pub(crate) fn push_finish(&mut self, at: Point, number: u32) -> Pushed {
        let Some(column) = self.columns.get_mut(usize::from(at.place)) else {
            return Ok(());
        };
        let Some(lane) = column.lanes.get_mut(at.lane) else {
            return Ok(());
        };
        let mut part = part_of(Shape::Finish, at, Point { row: 0, ..at });
        part.number = u64::from(number);
        part.other = lane.finish;
        if let Some(outer) = lane.finish
            && let Some(outer) = self.finishes.get(outer)
        {
            part.depth = outer.depth.saturating_add(1);
        }
        lane.finish = Some(self.finishes.len());
        self.seen.see(Shape::Finish);
        self.finishes.push(part)?;
        Ok(())
    }

    /// A stay closes its innermost finish. Answers its number.
    fn close_finish(&mut self, at: Point) -> Option<u64> {
        let column = self.columns.get_mut(usize::from(at.place))?;
        let lane = column.lanes.get_mut(at.lane)?;
        let finish = self.finishes.get_mut(lane.finish?)?;
        lane.finish = finish.other;
        finish.to = at;
        Some(finish.number)
    }

    /// The arrow of a frame, if it is in flight: from a point, or from the head of its sender's lifeline.
    pub(crate) fn add_arrow(
        &mut self,
        world: &World,
        from: Option<Point>,
        number: u64,
    ) -> Result<Option<Part>, AllocError> {
        let Some((to, bytes)) = world.frame(number) else {
            return Ok(None);
        };
        let head = match FrameView::read(self.known.alloc, bytes, world.count()) {
            Ok(view) => view.head(),
            Err(FrameFault::Memory) => return Err(AllocError),
            Err(_) => return Ok(None),
        };
        let (shape, other) = match head.what {
            What::Spawn { .. } => (Shape::Spawn, None),
            What::Shift { waiting, .. } => (Shape::Shift, Some(waiting as usize)),
            What::Back { waiting } => (Shape::Back, Some(waiting as usize)),
            What::Report { .. } => (Shape::Report, None),
        };
        let mut arrow = part_of(shape, from.unwrap_or(lifeline(head.from)), lifeline(to));
        arrow.number = number;
        arrow.other = other;
        self.seen.see(shape);
        self.arrows.push(arrow)?;
        Ok(Some(arrow))
    }

    /// A frame that a step put out: by a Shift its stay goes on elsewhere.
    fn post(&mut self, world: &World, at: Point, number: u64) -> Pushed {
        let doing = match self.add_arrow(world, Some(at), number)? {
            Some(arrow) if arrow.shape != Shape::Shift => return Ok(()),
            Some(arrow) if arrow.to.place == at.place => Shape::Beside,
            Some(_) => Shape::Away,
            None => return Ok(()),
        };
        self.change(at, Some(doing))
    }

    /// A stay ends.
    fn end(&mut self, at: Point) -> Pushed {
        self.change(at, None)?;
        self.seen.see(Shape::End);
        self.ends.push(part_of(Shape::End, at, at))?;
        Ok(())
    }

    /// One more step in the row of a label.
    fn share(&mut self, label: usize) -> Pushed {
        if let Some(label) = self.labels.get_mut(label) {
            label.steps = label.steps.saturating_add(1);
            label.tone = Tone::Shortened;
            label.letters = SHORTENED;
            self.seen.shortened = true;
        }
        Ok(())
    }

    /// The label of a step that put out the arrows from `sent` on.
    fn label_step(&mut self, world: &World, step: Step, steps: u64, sent: usize) -> Pushed {
        let mut words = String::new(self.known.alloc);
        let mut full = String::new(self.known.alloc);
        match step.op {
            Op::Print => {
                self.seen.see(Shape::Print);
                self.known.push_printed(&mut words, &mut full, world, step)?;
            }
            _ => self
                .known
                .push_step(&mut words, world, step, self.arrows.get(sent..))?,
        }
        let tone = if full.is_empty() {
            step.tone
        } else {
            Tone::Cut
        };
        self.label(step.at, tone, steps, &words, &full)
    }
}
