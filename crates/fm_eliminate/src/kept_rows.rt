//! Rows that are kept as they are formed, without those that say nothing more.

ghost use Rattle.std.specs.Prelude.{◌≡◌, ◌↔◌, ◌⊎◌, ◌+◌, ◌<◌, ◌≤◌, ◌++◌, ◌∷◌, [], IsTrue, IfSome, IfOk, OnOk, OnErr, length, if◌then◌else◌, ◌||◌, ◌&&◌, not, int_lt, pos, slice_set};
ghost use Rattle.std.specs.List.{list_all};
ghost use Rattle.fm_eliminate.specs.Leaving.{IsLeft, IsAlikeAt, is_zero, always_holds};

use crate::places::{Places, digest};
use lin_row::Row;
use std::alloc::{AllocError, Global};
use std::marker::Model;

/// Rows that are kept, and where each stands: of those with the same coefficients, one.
#[derive(Debug, Drop)]
pub struct KeptRows {
    rows: Vec<Row>,
    places: Places,
}

impl Model for KeptRows {
    ghost use Rattle.std.specs.Prelude.{List};
    ghost use Rattle.poly_specs.specs.Rows.{Row as RowValue};

    ghost Value = { List RowValue };

    ghost view = { λ k. k.rows.items };
}

impl KeptRows {
    /// No rows, and room for so many.
    pub fn with_capacity(alloc: Global, rows: usize) -> Result<KeptRows, AllocError>
        ensures { IfOk result (λ k. k ≡ []) }
    {
        let rows = Vec::with_capacity(alloc, rows)?;
        Ok(KeptRows {
            rows,
            places: Places::new(alloc),
        })
    }

    /// The rows, in their order. The room that is left is given back.
    pub fn into_rows(self) -> Vec<Row>
        ensures { result.items ≡ self }
    {
        let mut rows = self.rows;
        rows.shrink_to_fit();
        rows
    }

    /// Adds a row. It is left out where it always holds or a kept row dominates it; it takes the
    /// place of a kept row that it dominates; else it stands last. After an error nothing has
    /// changed.
    pub fn add_row(&mut self, row: Row) -> Result<(), AllocError>
        ensures ok { OnOk result (IsLeft (self.old ++ row ∷ []) self.new) }
        ensures few { length self.new ≤ length self.old + (if always_holds row then 0 else 1) }
        ensures err { OnErr result (self.new ≡ self.old) }
    {
        if is_idle(&row) {
            return Ok(());
        }
        let digest = digest(row.coef());
        match self.find(&row, digest) {
            Some(place) => {
                tighten(self.rows.as_mut_slice(), place, row);
                Ok(())
            }
            None => self.push(row, digest),
        }
    }

    /// Where a row stands that has the coefficients of this one.
    fn find(&self, row: &Row, digest: u32) -> Option<usize>
        ensures { IfSome result (λ place. IsAlikeAt self.now place row.now) }
    {
        for steps in 0..self.places.len() {
            let entry = self.places.entry(digest, steps);
            let place = entry.place()?;
            if entry.has(digest) && is_alike(self.rows.as_slice(), place, row) {
                return Some(place);
            }
        }
        None
    }

    /// Adds a row that has coefficients of its own.
    fn push(&mut self, row: Row, digest: u32) -> Result<(), AllocError>
        ensures ok { OnOk result (self.new ≡ self.old ++ row ∷ []) }
        ensures err { OnErr result (self.new ≡ self.old) }
    {
        self.places.reserve(*self.rows.allocator())?;
        let place = self.rows.len();
        self.rows.push(row)?;
        self.places.add(digest, place);
        Ok(())
    }
}

fn all_zero(numbers: &[i128]) -> bool
    ensures { result ≡ list_all is_zero numbers.now }
{
    numbers.iter().all(|number| *number == 0)
}

fn is_low(cst: i128, strict: bool) -> bool
    ensures { result ≡ (int_lt cst (pos 0) || (is_zero cst && not strict)) }
{
    cst < 0 || (cst == 0 && !strict)
}

/// Whether the row has no coefficient and always holds.
fn is_idle(row: &Row) -> bool
    ensures { result ≡ always_holds row.now }
{
    all_zero(row.coef()) && is_low(row.cst(), row.strict())
}

/// Whether the row at this place has the coefficients of the other: then one of them dominates the
/// other.
fn is_alike(rows: &[Row], place: usize, row: &Row) -> bool
    ensures { IsTrue result ↔ IsAlikeAt rows.now place row.now }
{
    place < rows.len() && (Row::dominated(row, &rows[place]) || Row::dominated(&rows[place], row))
}

/// Puts the row in place of one with the same coefficients, unless that one dominates it.
fn tighten(rows: &mut [Row], place: usize, row: Row)
    requires { IsAlikeAt rows.old place row }
    ensures left { IsLeft (rows.old ++ row ∷ []) rows.new }
    ensures few { length rows.new ≡ length rows.old }
{
    if !Row::dominated(&row, &rows[place]) {
        put(rows, place, row);
    }
}

fn put(rows: &mut [Row], place: usize, row: Row)
    requires { place < length rows.old }
    ensures { rows.new ≡ slice_set rows.old place row }
{
    rows[place] = row;
}
