//! Rows whose columns are moved or cut.

ghost use Rattle.std.specs.Prelude.{◌≡◌, ◌<◌, ◌≤◌, All, length, drop, replicate, slice_set, pos};
ghost use Rattle.poly_specs.specs.Columns.{AreDistinct, put_at, placed, cut};

use crate::Row;
use crate::numbers::inline_copy;
use smallvec::SmallVec;
use std::alloc::Global;

impl Row {
    /// The row whose column `j` stands in column `to[j]` of `width` columns.
    pub fn place(&self, to: &[usize], width: usize) -> Row
        requires sized { length to.now ≡ length self.now.coef }
        requires distinct { AreDistinct to.now }
        requires within { All (λ x. x < width) to.now }
        requires few { width ≤ 14 }
        ensures { result ≡ placed to.now width self.now }
    {
        Row {
            coef: put(*self.coef.allocator(), to, self.coef.as_slice(), width),
            cst: self.cst,
            strict: self.strict,
        }
    }

    /// The row's first `width` columns. The coefficients of the others are 0.
    pub fn cut(&self, width: usize) -> Row
        requires within { width ≤ length self.now.coef }
        requires zeros { All (λ c. c ≡ pos 0) (drop width self.now.coef) }
        ensures { result ≡ cut width self.now }
    {
        Row {
            coef: inline_copy(*self.coef.allocator(), &self.coef.as_slice()[..width]),
            cst: self.cst,
            strict: self.strict,
        }
    }
}

/// The numbers at these places among `width`, with 0 in the others.
fn put(alloc: Global, to: &[usize], numbers: &[i128], width: usize) -> SmallVec<i128, 14>
    requires sized { length to.now ≡ length numbers.now }
    requires within { All (λ x. x < width) to.now }
    requires few { width ≤ 14 }
    ensures items { result.items ≡ put_at to.now numbers.now (replicate width (pos 0)) }
    ensures inline { result.capacity ≡ 14 }
{
    let mut placed = SmallVec::from_elem(alloc, 0, width).unwrap();
    for i in 0..to.len() {
        set(&mut placed, to[i], numbers[i]);
    }
    placed
}

fn set(numbers: &mut SmallVec<i128, 14>, at: usize, number: i128)
    requires { at < length numbers.old.items }
    ensures items { numbers.new.items ≡ slice_set numbers.old.items at number }
    ensures inline { numbers.new.capacity ≡ numbers.old.capacity }
{
    numbers.as_mut_slice()[at] = number;
}
