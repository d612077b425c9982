//! The measurements of a metric that a chart shows.
use crate::charts::conditions::Conditions;
use crate::charts::numbers::Span;
use crate::charts::spot::Spot;
use canary_base::error::Memory;
use canary_base::moments::Moment;
use canary_condition::outcome::{Outcome, Phase};
use canary_decimal::shown::Units;
use canary_metric::tally::Tally;
use canary_release::effect::Recorded;
use std::alloc::Global;

/// The most points of a chart.
pub(crate) const MAX_POINTS: u64 = 300;

// The points that a chart has room for besides its first and its last.
const ROOM: u64 = MAX_POINTS - 2;

/// A measurement that is shown.
#[derive(Drop)]
pub(crate) struct Point {
    pub(crate) ordinal: u32,
    pub(crate) taken: Moment,
    pub(crate) phase: Phase,
    pub(crate) outcome: Outcome,
}

/// The measurements of a metric in a run, in order, of which the tally is known before: all of
/// them, or, of more than 300, the first, the last, each that is not Successful, and evenly some of
/// the others. If those that are not Successful are too many, evenly some of these, too.
#[derive(Drop)]
pub(crate) struct Chart {
    // Of all measurements, and of those that are not Successful.
    whole: u64,
    whole_bad: u64,
    // How many were seen, and how many of these were not Successful.
    seen: u64,
    seen_bad: u64,
    units: Units,
    rows: Vec<ChartRow>,
    points: Vec<Point>,
}

/// What a chart shows of its results: the numbers at a spot, from the least to the greatest, of all
/// measurements, if there are any. What stands for NaN is not one of them.
#[derive(Clone, Copy)]
pub(crate) struct ChartRow {
    pub(crate) spot: Spot,
    pub(crate) span: Option<Span>,
}

impl ChartRow {
    // Widens its span to the number that a measurement has at its spot, if there is one to draw.
    fn widen(&mut self, units: Units, outcome: &Outcome) {
        if let Some(number) = self.spot.drawn_of(units, outcome) {
            self.span = Some(Span::with(self.span, number));
        }
    }
}

impl Chart {
    // That of no measurement so far, which shows what these conditions name.
    pub(crate) fn new(
        alloc: Global,
        tally: &Tally,
        conditions: &Conditions,
    ) -> Result<Chart, Memory> {
        let bad = u64::from(tally.failed())
            .saturating_add(u64::from(tally.inconclusive()))
            .saturating_add(u64::from(tally.errors()));
        Ok(Chart {
            whole: u64::from(tally.measurements()),
            whole_bad: bad,
            seen: 0,
            seen_bad: 0,
            units: conditions.units,
            rows: rows_of(alloc, conditions.drawn())?,
            points: Vec::new(alloc),
        })
    }

    // Takes the next measurement.
    pub(crate) fn add(&mut self, alloc: Global, recorded: &Recorded) -> Result<(), Memory> {
        let is_bad = recorded.phase != Phase::Successful;
        let shows = self.shows(is_bad);
        self.seen = self.seen.saturating_add(1);
        if is_bad {
            self.seen_bad = self.seen_bad.saturating_add(1);
        }
        for row in self.rows.iter_mut() {
            row.widen(self.units, &recorded.outcome);
        }
        if shows {
            push_point(alloc, &mut self.points, recorded)?;
        }
        Ok(())
    }

    // Whether the next measurement is shown.
    fn shows(&self, is_bad: bool) -> bool {
        if self.whole <= MAX_POINTS || self.seen == 0 || self.seen.saturating_add(1) >= self.whole {
            return true;
        }
        if is_bad {
            return is_one_of(self.seen_bad, self.whole_bad, ROOM);
        }
        let good = self.whole.saturating_sub(self.whole_bad);
        let seen_good = self.seen.saturating_sub(self.seen_bad);
        is_one_of(seen_good, good, ROOM.saturating_sub(self.whole_bad))
    }

    /// The measurements that are drawn, in the order in which they were recorded.
    pub(crate) fn points(&self) -> &[Point] {
        self.points.as_slice()
    }

    // What it shows of each result, in order.
    pub(crate) fn rows(&self) -> &[ChartRow] {
        self.rows.as_slice()
    }

    // Whether each measurement that is not Successful is shown.
    pub(crate) fn has_all_bad(&self) -> bool {
        self.whole_bad <= ROOM
    }

    // How many measurements there are.
    pub(crate) fn whole(&self) -> u64 {
        self.whole
    }
}

// A row for each of these spots, without a span so far.
fn rows_of(alloc: Global, spots: &[Spot]) -> Result<Vec<ChartRow>, Memory> {
    let mut rows = Vec::new(alloc);
    for spot in spots {
        rows.push(ChartRow {
            spot: *spot,
            span: None,
        })?;
    }
    Ok(rows)
}

// Whether the item at this place is shown, if of so many items as many as there is room for are
// shown, evenly.
fn is_one_of(place: u64, whole: u64, room: u64) -> bool {
    part_of(place.saturating_add(1), whole, room) > part_of(place, whole, room)
}

// How many of the first items are shown.
fn part_of(first: u64, whole: u64, room: u64) -> u64 {
    if whole <= room {
        return first;
    }
    first.saturating_mul(room).checked_div(whole).unwrap_or(0)
}

// Adds a measurement to the points that are drawn.
fn push_point(alloc: Global, points: &mut Vec<Point>, recorded: &Recorded) -> Result<(), Memory> {
    points.push(Point {
        ordinal: recorded.ordinal,
        taken: recorded.taken,
        phase: recorded.phase,
        outcome: recorded.outcome.copy(alloc)?,
    })?;
    Ok(())
}
