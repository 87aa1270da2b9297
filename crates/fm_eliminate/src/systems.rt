//! Systems: how they are made, read, joined and copied.

ghost use Rattle.std.specs.Prelude.{◌≡◌, ◌↔◌, ◌≤◌, ◌++◌, IsTrue, SomeIff, OnOk, OnErr, IfOk, All};
ghost use Rattle.poly_specs.specs.KeptRows.{IsKeptRow};
ghost use Rattle.poly_specs.specs.Rows.{AllWide};
ghost use Rattle.poly_specs.specs.Systems.{IsKeptSystem};

use crate::System;
use lin_row::Row;
use std::alloc::{AllocError, Global};

impl System {
    /// The system of these rows. `None` where a row has another width, or the width is above 14.
    pub fn make(width: usize, rows: Vec<Row>) -> Option<System>
        ensures { SomeIff result ((width ≤ 14) × AllWide width rows.items) (record { width = width; rows = rows.items }) }
    {
        if width > 14 || !are_wide(rows.as_slice(), width) {
            return None;
        }
        Some(System::of_rows(width, rows))
    }

    /// The system of rows that have its width.
    pub fn of_rows(width: usize, rows: Vec<Row>) -> System
        requires few { width ≤ 14 }
        requires wide { AllWide width rows.items }
        ensures { result ≡ record { width = width; rows = rows.items } }
    {
        see_kept(rows.as_slice());
        System { width, rows }
    }

    /// The number of columns.
    pub fn width(&self) -> usize
        ensures value { result ≡ self.now.width }
        ensures kept { IsKeptSystem self.now }
    {
        self.width
    }

    /// The rows, in their order.
    pub fn rows(&self) -> &[Row]
        ensures value { result.now ≡ self.now.rows }
        ensures kept { IsKeptSystem self.now }
    {
        self.rows.as_slice()
    }

    /// Appends copies of these rows. After an error nothing has changed.
    pub fn and(&mut self, rows: &[Row]) -> Result<(), AllocError>
        requires { AllWide self.old.width rows.now }
        ensures ok { OnOk result (self.new ≡ record self.old { rows = self.old.rows ++ rows.now }) }
        ensures err { OnErr result (self.new ≡ self.old) }
    {
        see_kept(rows);
        append(&mut self.rows, rows)
    }

    /// The same system.
    pub fn copy(&self, alloc: Global) -> Result<System, AllocError>
        ensures { IfOk result (λ s. s ≡ self.now) }
    {
        let rows = copied(alloc, self.rows.as_slice())?;
        Ok(System::of_rows(self.width, rows))
    }
}

/// Whether each row has this width.
fn are_wide(rows: &[Row], width: usize) -> bool
    ensures { IsTrue result ↔ AllWide width rows.now }
{
    rows.iter().all(|row| row.coef().len() == width)
}

/// No number of any row passes 128 bits, which holds of each row: there is nothing to run.
fn see_kept(rows: &[Row])
    ensures { All IsKeptRow rows.now }
{
    for row in rows {
        row.strict();
    }
}

/// Appends copies of these rows, or nothing where there is no memory.
fn append(rows: &mut Vec<Row>, more: &[Row]) -> Result<(), AllocError>
    ensures ok { OnOk result (rows.new.items ≡ rows.old.items ++ more.now) }
    ensures err { OnErr result (rows.new.items ≡ rows.old.items) }
{
    rows.reserve(more.len())?;
    for row in more {
        rows.push_reserved(row.copy());
    }
    Ok(())
}

fn copied(alloc: Global, rows: &[Row]) -> Result<Vec<Row>, AllocError>
    ensures { IfOk result (λ v. v.items ≡ rows.now) }
{
    let mut copies = Vec::new(alloc);
    append(&mut copies, rows)?;
    Ok(copies)
}
