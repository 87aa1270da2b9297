//! Linear equations between integers, solved exactly.
//!
//! A number that passes 128 bits ends it without an answer.

use checked_integers::{greatest_divisor, kept_difference, kept_product, kept_sum};

/// A number for each of 16 unknowns: the sum of the products is to be 0.
pub type Unknowns = [i128; 16];

/// An equation, and the unknown that it says, if any.
#[derive(Clone, Copy, Debug)]
pub struct Equation {
    pub numbers: Unknowns,
    pub said: usize,
}

/// Stands for the unknown of an equation that says none.
pub const NONE_SAID: usize = 16;

/// Lets equations say one unknown each, of those that are left, as many as can. An equation that
/// says one stands before those that have it too. How many say one; the unknowns that none says are
/// left.
pub fn say_unknowns(equations: &mut Vec<Equation>, left: &mut [bool; 16]) -> Option<usize> {
    let mut first = 0usize;
    for _ in 0..16 {
        let Some(at) = shortest(equations.as_slice(), first, left) else {
            return Some(first);
        };
        if first < equations.len() && at < equations.len() {
            equations.swap(first, at);
        }
        let unknown = pick(equations.as_slice(), first, left);
        left[unknown % 16] = false;
        cancel_below(equations.as_mut_slice(), first, unknown)?;
        first = first.wrapping_add(1);
    }
    Some(first)
}

/// Gives the unknowns that the first equations say their values, where all others have theirs.
pub fn solve(equations: &[Equation], count: usize, values: &mut Unknowns) -> Option<()> {
    for at in (0..count).rev() {
        if let Some(equation) = equations.get(at) {
            equation.solve(values)?;
        }
    }
    Some(())
}

/// The equation from this one on with the fewest numbers, but with one of an unknown that is left.
fn shortest(equations: &[Equation], first: usize, left: &[bool; 16]) -> Option<usize> {
    let mut found = None;
    let mut fewest = usize::MAX;
    for (at, equation) in equations.iter().enumerate().skip(first) {
        let length = equation.length(left);
        if length > 0 && length < fewest {
            found = Some(at);
            fewest = length;
        }
    }
    found
}

/// The unknown of this equation, of those that are left, that stands in the fewest equations behind it.
fn pick(equations: &[Equation], at: usize, left: &[bool; 16]) -> usize {
    let Some(equation) = equations.get(at) else {
        return NONE_SAID;
    };
    let mut found = NONE_SAID;
    let mut fewest = usize::MAX;
    for place in 0..16 {
        if left[place] && equation.numbers[place] != 0 {
            let mut count = 0usize;
            for other in equations.iter().skip(at) {
                if other.numbers[place] != 0 {
                    count = count.wrapping_add(1);
                }
            }
            if count < fewest {
                found = place;
                fewest = count;
            }
        }
    }
    found
}

/// Lets an equation say the unknown, which the equations behind it lose.
fn cancel_below(equations: &mut [Equation], at: usize, unknown: usize) -> Option<()> {
    let Some(equation) = equations.get_mut(at) else {
        return None;
    };
    equation.said = unknown;
    let by = *equation;
    for other in equations.iter_mut().skip(at.wrapping_add(1)) {
        other.cancel(&by, unknown)?;
    }
    Some(())
}

impl Equation {
    /// How many numbers of unknowns that are left are not 0.
    fn length(&self, left: &[bool; 16]) -> usize {
        let mut length = 0usize;
        for place in 0..16 {
            if left[place] && self.numbers[place] != 0 {
                length = length.wrapping_add(1);
            }
        }
        length
    }

    /// Adds a multiple of another equation, so that the unknown cancels.
    fn cancel(&mut self, by: &Equation, unknown: usize) -> Option<()> {
        let mine = self.numbers[unknown % 16];
        if mine == 0 {
            return Some(());
        }
        let theirs = by.numbers[unknown % 16];
        let shared = shared_by(mine, theirs);
        let p = quotient(theirs, shared);
        let q = quotient(mine, shared);
        for place in 0..16 {
            self.numbers[place] = difference_of_two(p, self.numbers[place], q, by.numbers[place])?;
        }
        reduce(&mut self.numbers);
        Some(())
    }

    /// Gives the unknown that the equation says its value, where all others in it have theirs.
    fn solve(&self, values: &mut Unknowns) -> Option<()> {
        let mut sum = 0;
        for place in 0..16 {
            if place != self.said {
                sum = with_product(sum, self.numbers[place], values[place])?;
            }
        }
        if sum == 0 {
            return Some(());
        }
        let number = self.numbers[self.said % 16];
        let shared = shared_by(sum, number);
        let value = quotient(sum, shared);
        let times = quotient(number, shared);
        if times != 1 {
            for place in 0..16 {
                values[place] = with_product(0, times, values[place])?;
            }
        }
        values[self.said % 16] = value.wrapping_neg();
        Some(())
    }
}

/// Divides the numbers by their greatest common divisor.
fn reduce(numbers: &mut Unknowns) {
    let mut shared = 0;
    for place in 0..16 {
        if numbers[place] != 0 {
            shared = greatest_divisor(shared, numbers[place].unsigned_abs());
            if shared == 1 {
                return;
            }
        }
    }
    let shared = i128::try_from(shared).unwrap_or(1);
    for place in 0..16 {
        numbers[place] = quotient(numbers[place], shared);
    }
}

/// The greatest common divisor of two numbers.
fn shared_by(a: i128, b: i128) -> i128 {
    i128::try_from(greatest_divisor(a.unsigned_abs(), b.unsigned_abs())).unwrap_or(1)
}

/// The quotient by a number that is not 0.
fn quotient(number: i128, by: i128) -> i128 {
    if by == 1 || number == 0 {
        return number;
    }
    if let (Ok(number), Ok(by)) = (i64::try_from(number), i64::try_from(by)) {
        return i128::from(number.checked_div(by).unwrap_or(0));
    }
    number.checked_div(by).unwrap_or(0)
}

/// The difference of two products.
fn difference_of_two(p: i128, a: i128, q: i128, b: i128) -> Option<i128> {
    if a == 0 && b == 0 {
        return Some(0);
    }
    if let (Ok(p), Ok(a), Ok(q), Ok(b)) = (
        i64::try_from(p),
        i64::try_from(a),
        i64::try_from(q),
        i64::try_from(b),
    ) {
        let left = i128::from(p).wrapping_mul(i128::from(a));
        let right = i128::from(q).wrapping_mul(i128::from(b));
        return Some(left.wrapping_sub(right));
    }
    kept_difference(kept_product(p, a)?, kept_product(q, b)?)
}

/// The sum with one more product.
fn with_product(sum: i128, a: i128, b: i128) -> Option<i128> {
    if a == 0 || b == 0 {
        return Some(sum);
    }
    if let (Ok(a), Ok(b)) = (i64::try_from(a), i64::try_from(b)) {
        return kept_sum(sum, i128::from(a).wrapping_mul(i128::from(b)));
    }
    kept_sum(sum, kept_product(a, b)?)
}
