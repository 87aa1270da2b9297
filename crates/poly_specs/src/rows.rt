//! What is said by a row that is combined of two, moved to other columns, cut, or dominated.

ghost use Rattle.std.specs.Prelude.{◌≡◌, ◌↔◌, ℕ, ◌<◌, ◌≤◌, List, All, length, take, drop, pos, ◌<ℤ◌};
ghost use Rattle.poly_specs.specs.Rows.{Row, Point, over, coef_at, Holds};
ghost use Rattle.poly_specs.specs.Columns.{AreDistinct, placed, at_columns, cut, IsDominated};
ghost use Rattle.poly_specs.specs.Elimination.{combination};

/// The combination of a lower and an upper row holds wherever both hold.
pub fn combination_is_implied()
    ensures { (x : ℕ) (lower upper : Row) (p : Point) → length lower.coef ≡ length upper.coef → coef_at x lower <ℤ pos 0 → pos 0 <ℤ coef_at x upper →
        Holds lower p → Holds upper p → Holds (combination x lower upper) p }
{}

/// It has the coefficient 0 in their column.
pub fn combination_is_free()
    ensures { (x : ℕ) (lower upper : Row) → length lower.coef ≡ length upper.coef → coef_at x lower <ℤ pos 0 → pos 0 <ℤ coef_at x upper →
        coef_at x (combination x lower upper) ≡ pos 0 }
{}

/// A row that was moved holds at a point exactly where the row holds at the point's coordinates in the columns to which it was moved.
pub fn placed_row_holds()
    ensures { (to : List ℕ) (n : ℕ) (r : Row) (p : Point) → AreDistinct to → All (λ x. x < n) to → length to ≡ length r.coef → length p.num ≡ n →
        Holds (placed to n r) p ↔ Holds r (at_columns to p) }
{}

/// A row without the columns from n on, where its coefficients are 0, says the same of the columns before.
pub fn cut_row_holds()
    ensures { (n : ℕ) (r : Row) (p : Point) → All (λ c. c ≡ pos 0) (drop n r.coef) → length p.num ≡ length r.coef →
        Holds (cut n r) (over p.den (take n p.num)) ↔ Holds r p }
{}

/// A row that another dominates holds wherever that one holds.
pub fn dominated_row_is_implied()
    ensures { (a b : Row) (p : Point) → IsDominated a b → pos 0 <ℤ p.den → Holds b p → Holds a p }
{}
