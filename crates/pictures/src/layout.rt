// Where things stand: a lane for each desk that something happens at, a column for each event.
use crate::Event;
use std::alloc::{AllocError, Global};

const LEFT: u64 = 104;

const TOP: u64 = 54;

const COLUMN: u64 = 54;

const LANE: u64 = 72;

const DESKS: u64 = 32;

// A point of the picture: x to the right, y down.
#[derive(Clone, Copy, Debug, PartialEq, Eq)]
pub struct Point {
    pub x: u64,
    pub y: u64,
}

impl Point {
    pub fn right(self, by: u64) -> Point {
        Point {
            x: self.x.saturating_add(by),
            ..self
        }
    }

    pub fn left(self, by: u64) -> Point {
        Point {
            x: self.x.saturating_sub(by),
            ..self
        }
    }

    pub fn down(self, by: u64) -> Point {
        Point {
            y: self.y.saturating_add(by),
            ..self
        }
    }

    pub fn up(self, by: u64) -> Point {
        Point {
            y: self.y.saturating_sub(by),
            ..self
        }
    }
}

#[derive(Drop)]
pub struct Layout {
    // The desks, from the top.
    pub lanes: Vec<u64>,
    pub columns: u64,
}

fn takes_part(event: &Event, desk: u64) -> bool {
    match event {
        Event::Deed { desk: here, .. } | Event::Shown { desk: here, .. } => *here == desk,
        Event::Made { from, to, .. } => *from == desk || *to == desk,
        Event::Came { .. } => false,
        Event::Met { one, other } => *one == desk || *other == desk,
    }
}

fn any_at(events: &[Event], desk: u64) -> bool {
    events.iter().any(|event| takes_part(event, desk))
}

impl Layout {
    pub fn of(heap: Global, events: &[Event]) -> Result<Layout, AllocError> {
        Ok(Layout {
            lanes: (0..DESKS)
                .filter(|desk| any_at(events, *desk))
                .collect(heap)?,
            columns: events.len() as u64,
        })
    }

    pub fn width(&self) -> u64 {
        x(self.columns.saturating_add(1))
    }

    pub fn height(&self) -> u64 {
        lane_y(self.lanes.len() as u64)
    }

    // Where a column meets a desk's line.
    pub fn point(&self, column: u64, desk: u64) -> Point {
        let lane = self.lanes.iter().position(|here| *here == desk);
        Point {
            x: x(column),
            y: lane_y(lane.unwrap_or(0) as u64),
        }
    }
}

// The middle of a column.
pub fn x(column: u64) -> u64 {
    column.saturating_mul(COLUMN).saturating_add(LEFT)
}

pub fn lane_y(lane: u64) -> u64 {
    lane.saturating_mul(LANE).saturating_add(TOP)
}
