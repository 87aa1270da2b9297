//! Points that have given fractions in their first columns.

ghost use Rattle.std.specs.Prelude.{◌≡◌, ◌≤◌, ◌++◌, All, length, replicate, pos, ◌<ℤ◌, Err, OnOk, IfOk};
ghost use Rattle.poly_specs.specs.Arithmetic.{IsKept};
ghost use Rattle.poly_specs.specs.Bits.{FitsBits, NonePasses, SomePasses};
ghost use Rattle.poly_specs.specs.Denominators.{common_numbers};
ghost use Rattle.poly_specs.specs.Rows.{over};
ghost use Rattle.column_pick.specs.Fixed.{padded, fixed_point};

use fm_eliminate::RowFault;
use frac128::{Frac, over_common};
use lin_row::Point;
use std::alloc::{AllocError, Global};

/// Appends zeros.
fn push_zeros(nums: &mut Vec<i128>, count: usize) -> Result<(), AllocError>
    ensures { OnOk result (nums.new.items ≡ nums.old.items ++ replicate count (pos 0)) }
{
    for _ in 0..count {
        nums.push(0)?;
    }
    Ok(())
}

/// The numbers, with 0 in the columns after them.
fn padded_nums(alloc: Global, nums: &[i128], width: usize) -> Result<Vec<i128>, AllocError>
    requires { length nums.now ≤ width }
    ensures { IfOk result (λ v. v.items ≡ padded width nums.now) }
{
    let mut all = Vec::new(alloc);
    all.extend_from_slice(nums)?;
    push_zeros(&mut all, width - nums.len())?;
    Ok(all)
}

/// The point that has these numbers over the denominator in its first columns, and 0 in the others.
fn point_over(alloc: Global, nums: &[i128], den: i128, width: usize) -> Result<Point, AllocError>
    requires few { length nums.now ≤ width }
    requires fit { NonePasses nums.now }
    requires den_fits { FitsBits den }
    requires positive { pos 0 <ℤ den }
    ensures { IfOk result (λ p. p ≡ over den (padded width nums.now)) }
{
    let all = padded_nums(alloc, nums, width)?;
    Ok(Point::make(all, den).unwrap())
}

/// The point that has the fractions in its first columns, over their least common denominator, and
/// 0 in the others. `Passes` where the denominator or a numerator passes 128 bits.
pub fn fixed_point(alloc: Global, numbers: &[Frac], width: usize) -> Result<Point, RowFault>
    requires few { length numbers.now ≤ width }
    requires wide { width ≤ 14 }
    ensures ok { IfOk result (λ p. p ≡ fixed_point width numbers.now) }
    ensures passes { result ≡ Err RowFault.Passes → SomePasses (common_numbers numbers.now) }
    ensures kept { All IsKept numbers.now }
{
    let Some(common) = over_common(alloc, numbers) else {
        return Err(RowFault::Passes);
    };
    let point = point_over(alloc, common.nums.as_slice(), common.den, width)?;
    Ok(point)
}
