//! Answers as they are written.

use crate::texts::Missing;
use fm_eliminate::System;
use frac128::Frac;
use lin_row::{Point, Row};
use std::alloc::{AllocError, Global};

pub fn word(alloc: Global, text: &str) -> Result<String, Missing> {
    Ok(String::from_str(alloc, text)?)
}

pub fn yes_or_no(alloc: Global, is_so: bool) -> Result<String, Missing> {
    word(alloc, if is_so { "yes" } else { "no" })
}

/// The text of a fraction, by its own writer.
pub fn fraction(alloc: Global, value: &Frac) -> Result<String, Missing> {
    let mut bytes = Vec::new(alloc);
    value.write(&mut bytes)?;
    match String::from_utf8(bytes) {
        Ok(text) => Ok(text),
        Err(_) => Err(Missing::Form),
    }
}

pub fn maybe_fraction(alloc: Global, value: Option<Frac>) -> Result<String, Missing> {
    match value {
        Some(value) => fraction(alloc, &value),
        None => word(alloc, "none"),
    }
}

fn row_text(alloc: Global, row: &Row) -> Result<String, AllocError> {
    let mut text = String::new(alloc);
    if row.strict() {
        text.push_str("< ")?;
    }
    for number in row.coef() {
        write!(text, "{number} ")?;
    }
    let cst = row.cst();
    write!(text, "{cst}")?;
    Ok(text)
}

pub fn row(alloc: Global, given: &Row) -> Result<String, Missing> {
    Ok(row_text(alloc, given)?)
}

fn row_texts(alloc: Global, rows: &[Row]) -> Result<Vec<String>, AllocError> {
    let mut texts = Vec::new(alloc);
    for row in rows {
        texts.push(row_text(alloc, row)?)?;
    }
    Ok(texts)
}

fn system_text(alloc: Global, system: &System) -> Result<String, AllocError> {
    let mut texts = row_texts(alloc, system.rows())?;
    texts.sort()?;
    let width = system.width();
    let mut text = format!(in alloc; "{width}:")?;
    for (place, row) in texts.iter().enumerate() {
        text.push_str(if place == 0 { " " } else { "; " })?;
        text.push_str(row.as_str())?;
    }
    Ok(text)
}

pub fn system(alloc: Global, given: &System) -> Result<String, Missing> {
    Ok(system_text(alloc, given)?)
}

fn systems_text(alloc: Global, all: &[System]) -> Result<String, AllocError> {
    let mut text = String::new(alloc);
    for (place, one) in all.iter().enumerate() {
        text.push_str(if place == 0 { "" } else { " | " })?;
        text.push_str(system_text(alloc, one)?.as_str())?;
    }
    Ok(text)
}

pub fn systems(alloc: Global, all: &[System]) -> Result<String, Missing> {
    Ok(systems_text(alloc, all)?)
}

fn point_text(alloc: Global, point: &Point) -> Result<String, AllocError> {
    let mut text = String::new(alloc);
    for number in point.num() {
        write!(text, "{number} ")?;
    }
    let den = point.den();
    write!(text, "/ {den}")?;
    Ok(text)
}

pub fn point(alloc: Global, given: &Point) -> Result<String, Missing> {
    Ok(point_text(alloc, given)?)
}
