//! Where things are on the page, in pixels.
use crate::columns::Column;
use crate::parts::Point;
use std::alloc::{AllocError, Global};

/// The height of a row.
const ROW: u64 = 12;
/// The width of a letter.
const LETTER: u64 = 6;
/// From a lane to the next one, where lanes stand close together.
const LANE: u64 = 18;
/// From the left edge of a column to its lifeline, and from that to the first lane.
const EDGE: u64 = 14;
/// Before a bar: room for the brackets.
const BEFORE: u64 = 18;
/// From a bar or a lifeline to its labels.
const BESIDE: u64 = 10;
/// After labels, and around the page.
const MARGIN: u64 = 12;
/// The least width of a column: its name has room.
const NAME: u64 = 84;
/// From the lifeline of a column that stands for several places to the next column.
const NAMES: u64 = 112;
/// The width up to which the labels of each lane stand beside it.
const WIDE: u64 = 1280;

/// The column of a place.
#[derive(Clone, Copy)]
pub(crate) struct Band {
    /// How many places it stands for: where nothing happens at several that follow one another, the column of the first one
    /// stands for them, and those of the others for none.
    pub(crate) stands: u16,
    /// The number of its first track, which is the lifeline's, and how many it has.
    first: usize,
    pub(crate) lanes: usize,
    /// Whether its lanes stand close together, and share the room for labels behind the last one.
    pub(crate) shared: bool,
}

/// A lane: the middle of its bar, and where its labels begin.
#[derive(Clone, Copy)]
pub(crate) struct Track {
    pub(crate) bar: u64,
    pub(crate) labels: u64,
}

/// Where everything is.
#[derive(Drop)]
pub(crate) struct Grid {
    bands: Vec<Band>,
    tracks: Vec<Track>,
    /// The last band, if nothing happens there: the next place may join it.
    lead: Option<usize>,
    /// How wide the columns are in which something happens, with the margins.
    full: u64,
    /// The row behind the last one.
    pub(crate) bottom: u64,
    pub(crate) width: u64,
    /// The middle of the first row.
    pub(crate) top: u64,
    /// Whether the lanes of a place share the room for labels.
    pub(crate) shared: bool,
}

/// How many letters stand before the label of a lane in a place whose lanes share the room for labels.
pub(crate) fn prefix_letters(lane: usize) -> usize {
    match lane {
        0 => 0,
        1..=10 => 4,
        11..=100 => 5,
        101..=1000 => 6,
        _ => 12,
    }
}

/// How wide `letters` columns of letters are.
pub(crate) fn letters_wide(letters: usize) -> u64 {
    LETTER.saturating_mul(letters as u64)
}

/// Where a label ends that begins at a position, with the margin behind it.
fn behind(labels: u64, letters: usize) -> u64 {
    match letters {
        0 => labels,
        _ => labels
            .saturating_add(letters_wide(letters))
            .saturating_add(MARGIN),
    }
}

impl Grid {
    /// The grid of columns from left to right, on a page of at least a width. Lanes of one place stand close together where the
    /// page would be too wide.
    pub(crate) fn new(alloc: Global, columns: &[Column], least: u64) -> Result<Grid, AllocError> {
        let grid = Grid::of(alloc, columns, least, false)?;
        if grid.full <= WIDE {
            return Ok(grid);
        }
        Grid::of(alloc, columns, least, true)
    }

    /// The same, where lanes of one place stand close together, or don't.
    fn of(alloc: Global, columns: &[Column], least: u64, close: bool) -> Result<Grid, AllocError> {
        let mut grid = Grid {
            bands: Vec::new(alloc),
            tracks: Vec::new(alloc),
            lead: None,
            full: 2 * MARGIN,
            bottom: 0,
            width: 0,
            top: 0,
            shared: false,
        };
        let mut left = MARGIN;
        for column in columns {
            left = grid.add(column, left, close && column.lanes.len() > 2)?;
            grid.bottom = grid.bottom.max(column.rows.last);
        }
        grid.bottom = grid.bottom.saturating_add(1);
        grid.width = left.saturating_add(MARGIN).max(least);
        Ok(grid)
    }

    /// Adds the column of the next place, or has the one before stand for it too. Answers where the last column ends.
    fn add(&mut self, column: &Column, left: u64, shared: bool) -> Result<u64, AllocError> {
        let empty = column.is_empty();
        match self.lead {
            Some(lead) if empty => {
                self.join(lead)?;
                let lifeline = self.track(column.place, 0).bar;
                return Ok(left.max(lifeline.saturating_add(NAMES)));
            }
            _ => {}
        }
        self.lead = if empty { Some(self.bands.len()) } else { None };
        let right = self.add_own(column, left, shared)?;
        if !empty {
            self.full = self.full.saturating_add(right.saturating_sub(left));
        }
        Ok(right)
    }

    /// One more place for which a column stands.
    fn join(&mut self, lead: usize) -> Result<(), AllocError> {
        let Some(band) = self.bands.get_mut(lead) else {
            return Ok(());
        };
        band.stands = band.stands.saturating_add(1);
        let joined = Band { stands: 0, ..*band };
        self.bands.push(joined)?;
        Ok(())
    }

    /// Adds a column of its own: each lane has its labels beside it, or the lanes stand close together, and all labels behind the
    /// last one. Answers where it ends.
    fn add_own(&mut self, column: &Column, left: u64, shared: bool) -> Result<u64, AllocError> {
        let lanes = column.lanes.len();
        let first = self.tracks.len();
        self.bands.push(Band {
            stands: 1,
            first,
            lanes,
            shared,
        })?;
        self.shared |= shared;
        let lifeline = left.saturating_add(EDGE);
        let close = lifeline.saturating_add(EDGE + BEFORE / 2 - LANE);
        let among = close.saturating_add(LANE.saturating_mul(lanes as u64));
        let mut right = lifeline.saturating_add(EDGE);
        for (number, lane) in column.lanes.iter().enumerate() {
            let bar = match number {
                0 => lifeline,
                _ if shared => close.saturating_add(LANE.saturating_mul(number as u64)),
                _ => right.saturating_add(BEFORE),
            };
            let beside = bar.saturating_add(BESIDE);
            let labels = if shared { among } else { beside };
            self.tracks.push(Track { bar, labels })?;
            right = if shared {
                let letters = lane.widest.saturating_add(prefix_letters(number));
                right.max(behind(among, letters))
            } else {
                behind(beside.max(right), lane.widest)
            };
        }
        Ok(right.max(left.saturating_add(NAME)))
    }

    /// The middle of a row.
    pub(crate) fn y(&self, row: u64) -> u64 {
        self.top.saturating_add(ROW.saturating_mul(row))
    }

    /// The column of a place.
    pub(crate) fn band(&self, place: u16) -> Band {
        let none = Band {
            stands: 0,
            first: 0,
            lanes: 0,
            shared: false,
        };
        self.bands.get(usize::from(place)).copied().unwrap_or(none)
    }

    /// The track of a lane; that of the lifeline, where the place has no such lane.
    pub(crate) fn track(&self, place: u16, lane: usize) -> Track {
        let band = self.band(place);
        let lane = if lane < band.lanes { lane } else { 0 };
        let track = self.tracks.get(band.first.saturating_add(lane));
        track.copied().unwrap_or(Track { bar: 0, labels: 0 })
    }
}
