//! Plain elimination of any columns is projection.

ghost use Rattle.std.specs.Prelude.{◌≡◌, ◌↔◌, ℕ, ◌<◌, List, All, length, ℤ, pos, ◌<ℤ◌};
ghost use Rattle.poly_specs.specs.Rows.{Row, Point, AllHold, AllWide, SomeValuesHoldIn};
ghost use Rattle.poly_specs.specs.Elimination.{eliminated_each};

/// Plain elimination of any columns, in any order, holds exactly where some values of these columns make the rows hold.
pub fn each_column_is_projected()
    ensures { (w : ℕ) (columns : List ℕ) (rows : List Row) (p : Point) → All (λ x. x < w) columns → AllWide w rows → length p.num ≡ w →
        pos 0 <ℤ p.den → AllHold (eliminated_each columns rows) p ↔ SomeValuesHoldIn columns rows p }
{}
