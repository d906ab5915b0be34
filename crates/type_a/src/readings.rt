ghost use Rattle.std.specs.Prelude.{◌≡◌, ◌+◌, ◌<◌, IfOk, None, Some, length};
ghost use Rattle.line_text.specs.Memory.{Gives};
ghost use Rattle.fixed_interval.specs.Interval.{Encloses};
ghost use Rattle.type_a.specs.declared.readings.ReadingsFault.TheVariants.{OutOfMemory};
ghost use Rattle.type_a.specs.Tables.{table_of, readings_of, reading_at, refusal, width_of};
ghost use Rattle.type_a.specs.Statistics.{exact_mean, exact_joint, mean_span, joint_span};

use crate::checks::{finest, first_misshapen, first_wide, width};
use crate::sums;
use crate::taken::reading_at;
use decimal18::Dec;
use fixed_interval::{Span, Steps, ratio};
use std::alloc::{AllocError, Global};
use std::marker::Model;
use std::sync::ledger::Ledger;

/// Why readings are not taken.
#[derive(Clone, Copy, Debug, PartialEq, Eq)]
pub enum ReadingsFault {
    /// Fewer than 2 records.
    TooFew,
    /// More than 1,000 records.
    TooMany,
    /// This record, counted from 1, has not 1 to 8 readings, or not as many as the first one.
    Shape(usize),
    /// This record, counted from 1, has a reading of a magnitude of 10^9 or more, or of 10^15 or more units
    /// of the finest place of all readings.
    Wide(usize),
    /// There is no memory for the readings.
    OutOfMemory,
}

/// The least records.
const LEAST_RECORDS: usize = 2;

/// The most records.
const MOST_RECORDS: usize = 1000;

/// Joint readings of 1 to 8 quantities: 2 to 1,000 records, each with a reading of every quantity.
#[derive(Drop, Debug)]
pub struct Readings {
    records: Vec<Vec<Dec>>,
    // the greatest number of places of all readings
    places: u8,
}

impl Model for Readings {
    ghost use Rattle.type_a.specs.Tables.{Table, IsTaken, table_of};

    ghost Value = { Table };

    ghost view = { λ r. table_of r.records.items };

    ghost invariant = { λ r. IsTaken (table_of r.records.items) r.places };
}

// A copy of the rows.
fn copied(alloc: Global, rows: &[Vec<Dec>]) -> Result<Vec<Vec<Dec>>, AllocError>
    ensures { IfOk result (λ copy. table_of copy.items ≡ table_of rows.now) }
{
    let mut records = Vec::with_capacity(alloc, rows.len())?;
    for row in rows {
        records.push(Vec::from_slice(alloc, row.as_slice())?)?;
    }
    Ok(records)
}

impl Readings {
    /// The readings of these records, of which it has a copy.
    ///
    /// # Errors
    ///
    /// The first of [`ReadingsFault::Shape`], [`ReadingsFault::TooFew`], [`ReadingsFault::TooMany`] and
    /// [`ReadingsFault::Wide`] that applies, or [`ReadingsFault::OutOfMemory`] where there is no memory for
    /// the copy.
    pub fn new(alloc: Global, rows: &[Vec<Dec>]) -> Result<Readings, ReadingsFault>
        ensures { Gives OutOfMemory result (readings_of (table_of rows.now)) }
    {
        if let Some(place) = first_misshapen(rows, width(rows)) {
            return Err(ReadingsFault::Shape(place));
        }
        if rows.len() < LEAST_RECORDS {
            return Err(ReadingsFault::TooFew);
        }
        if rows.len() > MOST_RECORDS {
            return Err(ReadingsFault::TooMany);
        }
        let places = finest(rows);
        if let Some(place) = first_wide(rows, places) {
            return Err(ReadingsFault::Wide(place));
        }
        let Ok(records) = copied(alloc, rows) else {
            return Err(ReadingsFault::OutOfMemory);
        };
        Ok(Readings { records, places })
    }

    /// How many records there are.
    pub fn count(&self) -> usize
        ensures { result ≡ length self.now }
    {
        self.records.len()
    }

    /// How many readings a record has.
    pub fn width(&self) -> usize
        ensures { result ≡ width_of self.now }
    {
        width(self.records.as_slice())
    }

    /// The reading of this column in this record.
    pub fn value_at(&self, row: usize, column: usize) -> Dec
        requires row { row < length self.now }
        requires column { column < width_of self.now }
        ensures { result ≡ reading_at self.now row column }
    {
        reading_at(self.records.as_slice(), row, column)
    }

    /// The span of the mean of a column (JCGM 100:2008, 4.2.1), its ends rounded outwards. It ticks once. The
    /// readings are a table that is taken, so each of their columns has this span.
    pub fn mean<L: Ledger>(&self, column: usize, steps: &mut Steps<L>) -> Span
        requires { column < width_of self.now }
        ensures span { Some result ≡ mean_span self.now column }
        ensures encloses { Encloses result (exact_mean self.now column) }
        ensures taken { refusal self.now ≡ None }
        ensures ticks { steps.new ≡ steps.old + 1 }
    {
        let mean = sums::mean(self.records.as_slice(), self.places, column);
        let Ok(span) = ratio(mean, self.places as u32, steps) else {
            unreachable!()
        };
        span
    }

    /// The span of the covariance of the means of two columns (5.2.3, H.2), for one column that of the
    /// variance of its mean (4.2.3), its ends rounded outwards. It ticks once.
    pub fn joint<L: Ledger>(&self, a: usize, b: usize, steps: &mut Steps<L>) -> Span
        requires first { a < width_of self.now }
        requires second { b < width_of self.now }
        ensures span { Some result ≡ joint_span self.now a b }
        ensures encloses { Encloses result (exact_joint self.now a b) }
        ensures ticks { steps.new ≡ steps.old + 1 }
    {
        let joint = sums::joint(self.records.as_slice(), self.places, a, b);
        let Ok(span) = ratio(joint, 2 * self.places as u32, steps) else {
            unreachable!()
        };
        span
    }
}
