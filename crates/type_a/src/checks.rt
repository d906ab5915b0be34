ghost use Rattle.std.specs.Prelude.{◌≡◌, ◌≤◌};
ghost use Rattle.std.specs.List.{position_from};
ghost use Rattle.type_a.specs.Tables.{is_misshapen, has_wide, places_in, finest, table_of, width_of};

use crate::coefficients::is_wide;
use decimal18::Dec;

/// The most readings of a record.
const MOST_READINGS: usize = 8;

/// How many readings the first record has; 0 where there is none.
pub fn width(rows: &[Vec<Dec>]) -> usize
    ensures { result ≡ width_of (table_of rows.now) }
{
    match rows.first() {
        Some(first) => first.len(),
        None => 0,
    }
}

// Whether the record has not 1 to 8 readings or not as many as `width`.
fn is_misshapen(row: &[Dec], width: usize) -> bool
    ensures { result ≡ is_misshapen width row.now }
{
    row.len() != width || row.is_empty() || row.len() > MOST_READINGS
}

/// The place, counted from 1, of the first record that has not 1 to 8 readings or not as many as `width`.
pub fn first_misshapen(rows: &[Vec<Dec>], width: usize) -> Option<usize>
    ensures { result ≡ position_from (is_misshapen width) 1 (table_of rows.now) }
{
    for (i, row) in rows.iter().enumerate() {
        if is_misshapen(row.as_slice(), width) {
            return Some(i + 1);
        }
    }
    None
}

// The greatest number of places of the record's readings.
fn places_in(row: &[Dec]) -> u8
    ensures value { result ≡ places_in row.now }
    ensures most { result ≤ 36 }
{
    let mut places = 0;
    for d in row {
        places = places.max(d.places());
    }
    places
}

/// The greatest number of places of all readings.
pub fn finest(rows: &[Vec<Dec>]) -> u8
    ensures value { result ≡ finest (table_of rows.now) }
    ensures most { result ≤ 36 }
{
    let mut places = 0u8;
    for row in rows {
        places = places.max(places_in(row.as_slice()));
    }
    places
}

// Whether a reading of the record is too wide.
fn has_wide(row: &[Dec], places: u8) -> bool
    ensures { result ≡ has_wide places row.now }
{
    row.iter().any(|d| is_wide(*d, places))
}

/// The place, counted from 1, of the first record with a reading that is too wide.
pub fn first_wide(rows: &[Vec<Dec>], places: u8) -> Option<usize>
    ensures { result ≡ position_from (has_wide places) 1 (table_of rows.now) }
{
    for (i, row) in rows.iter().enumerate() {
        if has_wide(row.as_slice(), places) {
            return Some(i + 1);
        }
    }
    None
}
