//! Whether systems hold at points.

use crate::texts::{Missing, point};
use crate::writing;
use fm_eliminate::System;
use lin_row::Point;
use std::alloc::Global;

/// Whether the system holds at a point.
pub fn held(alloc: Global, given: &System, at: &Point) -> Result<String, Missing> {
    if at.num().len() != given.width() {
        return Err(Missing::Form);
    }
    match given.holds(at) {
        Some(is_so) => writing::yes_or_no(alloc, is_so),
        None => writing::word(alloc, "none"),
    }
}

/// Whether the system holds at each of these points.
pub fn held_at_each(alloc: Global, given: &System, points: &str) -> Result<String, Missing> {
    let mut text = String::new(alloc);
    for one in points.split(',') {
        text.push_str(held(alloc, given, &point(alloc, one)?)?.as_str())?;
        text.push(' ')?;
    }
    Ok(String::from_str(alloc, text.as_str().trim())?)
}
