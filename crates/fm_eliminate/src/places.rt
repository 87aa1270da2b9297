//! Where rows stand, by a digest of their coefficients.
//!
//! What is found here is a hint: who asks compares the rows themselves.

use std::alloc::{AllocError, Global};

/// A digest, and one more than the place of the row that has it. A free entry has 0 there.
#[derive(Clone, Copy, Debug)]
pub struct Entry {
    digest: u32,
    next: u32,
}

const FREE: Entry = Entry { digest: 0, next: 0 };

/// A table of entries. Each stands where its digest says, or behind that, with no free entry
/// between: there are always free ones.
#[derive(Debug, Drop)]
pub struct Places {
    entries: Vec<Entry>,
    used: usize,
}

impl Entry {
    /// The place of the row.
    pub fn place(self) -> Option<usize> {
        let place = self.next.checked_sub(1)?;
        Some(place as usize)
    }

    /// Whether the row has this digest.
    pub fn has(self, digest: u32) -> bool {
        self.digest == digest
    }
}

impl Places {
    /// A table without places.
    pub fn new(alloc: Global) -> Places {
        Places {
            entries: Vec::new(alloc),
            used: 0,
        }
    }

    /// How many entries there are, free ones too.
    pub fn len(&self) -> usize {
        self.entries.len()
    }

    /// The entry that stands so many steps behind that of the digest.
    pub fn entry(&self, digest: u32, steps: usize) -> Entry {
        let at = index(digest, steps, self.entries.len());
        *self.entries.get(at).unwrap_or(&FREE)
    }

    /// Makes room for one more place: at least half of the entries stay free.
    pub fn reserve(&mut self, alloc: Global) -> Result<(), AllocError> {
        let size = self.entries.len();
        if self.used < size / 2 {
            return Ok(());
        }
        let mut more = vec![in alloc; FREE; size.saturating_mul(2).max(16)]?;
        for entry in self.entries.as_slice() {
            if entry.next != 0 {
                enter(more.as_mut_slice(), *entry);
            }
        }
        self.entries = more;
        Ok(())
    }

    /// Adds the place of a row, for which there is room. A place past 32 bits is left out.
    pub fn add(&mut self, digest: u32, place: usize) {
        if let Ok(next) = u32::try_from(place.wrapping_add(1)) {
            enter(self.entries.as_mut_slice(), Entry { digest, next });
            self.used = self.used.wrapping_add(1);
        }
    }
}

/// The sizes of tables are powers of 2.
fn index(digest: u32, steps: usize, size: usize) -> usize {
    (digest as usize).wrapping_add(steps) & size.wrapping_sub(1)
}

/// Puts an entry into the first free place.
fn enter(entries: &mut [Entry], entry: Entry) {
    let size = entries.len();
    for steps in 0..size {
        let at = index(entry.digest, steps, size);
        if at < size && entries[at].next == 0 {
            entries[at] = entry;
            return;
        }
    }
}

/// A digest of the numbers: equal numbers have the same. It is made of their last 64 bits.
pub fn digest(numbers: &[i128]) -> u32 {
    let mut sum = 0u64;
    for number in numbers {
        let low = (number.cast_unsigned() & 0xffff_ffff_ffff_ffff) as u64;
        sum = sum.wrapping_mul(0x517c_c1b7_2722_0a95).wrapping_add(low);
    }
    ((sum ^ (sum >> 32)) & 0xffff_ffff) as u32
}
