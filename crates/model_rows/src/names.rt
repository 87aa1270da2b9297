//! Where a name stands among others.

ghost use Rattle.std.specs.Prelude.{◌≡◌, bytes_eq};
ghost use Rattle.model_specs.specs.Constraints as constraints;

use lha_model::Name;

/// Whether two names are one.
pub(crate) fn are_same(name: &Name, other: &Name) -> bool
    ensures { result ≡ bytes_eq name.now other.now }
{
    name.bytes() == other.bytes()
}

/// The place of the name; where it is not among the names, their number.
pub(crate) fn place_in(names: &[Name], name: &Name) -> usize
    ensures { result ≡ constraints.place_in names.now name.now }
{
    for i in 0..names.len() {
        if are_same(&names[i], name) {
            return i;
        }
    }
    names.len()
}
