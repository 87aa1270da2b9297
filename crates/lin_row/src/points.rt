//! Points.

ghost use Rattle.std.specs.Prelude.{◌≡◌, SomeIff};
ghost use Rattle.poly_specs.specs.Rows.{over};
ghost use Rattle.poly_specs.specs.KeptRows.{IsKeptPoint};

use crate::Point;
use checked_integers::all_kept;

impl Point {
    /// The point `num[0] / den`, `num[1] / den` and so on. `None` where the denominator is not
    /// positive, or a number is the least value of the type.
    pub fn make(num: Vec<i128>, den: i128) -> Option<Point>
        ensures { SomeIff result (IsKeptPoint (over den num.items)) (over den num.items) }
    {
        if den <= 0 || !all_kept(num.as_slice()) {
            return None;
        }
        Some(Point { num, den })
    }

    /// The number of each coordinate.
    pub fn num(&self) -> &[i128]
        ensures value { result.now ≡ self.now.num }
        ensures kept { IsKeptPoint self.now }
    {
        self.num.as_slice()
    }

    /// The denominator, which is positive.
    pub fn den(&self) -> i128
        ensures value { result ≡ self.now.den }
        ensures kept { IsKeptPoint self.now }
    {
        self.den
    }
}
