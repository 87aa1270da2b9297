//! Names that are known, and names that stand once.

ghost use Rattle.std.specs.Prelude.{◌≡◌, ◌++◌, [], bytes_eq, OnOk, IfErr};
ghost use Rattle.model_specs.specs.Faults as faults;
ghost use Rattle.lha_check.specs.Told.{IsFirst};

use crate::CheckFault;
use lha_model::Name;

/// Whether two names are one.
pub(crate) fn are_same(name: &Name, other: &Name) -> bool
    ensures { result ≡ bytes_eq name.now other.now }
{
    name.bytes() == other.bytes()
}

/// Whether the name is among others.
fn is_among(names: &[Name], name: &Name) -> bool
    ensures { result ≡ faults.is_among names.now name.now }
{
    names.iter().any(|other| are_same(other, name))
}

/// Refuses a name that is none of the known ones.
pub(crate) fn known(line: u32, names: &[Name], name: &Name) -> Result<(), CheckFault>
    ensures none { OnOk result (faults.unknown line names.now name.now ≡ []) }
    ensures fault { IfErr result (IsFirst (faults.unknown line names.now name.now)) }
{
    if is_among(names, name) {
        return Ok(());
    }
    Err(CheckFault::UnknownName {
        line,
        name: name.copy(),
    })
}

/// Refuses a name that stood before.
pub(crate) fn once(line: u32, stood: bool, name: &Name) -> Result<(), CheckFault>
    ensures none { OnOk result (faults.if_so stood (faults.RepeatedName line name.now) ≡ []) }
    ensures fault { IfErr result (IsFirst (faults.if_so stood (faults.RepeatedName line name.now))) }
{
    if stood {
        return Err(CheckFault::RepeatedName {
            line,
            name: name.copy(),
        });
    }
    Ok(())
}

/// Refuses a name that is unknown, or that stood before.
pub(crate) fn known_once(
    line: u32,
    vars: &[Name],
    stood: bool,
    name: &Name,
) -> Result<(), CheckFault>
    ensures none { OnOk result (faults.unknown line vars.now name.now ++ faults.if_so stood (faults.RepeatedName line name.now) ≡ []) }
    ensures fault { IfErr result (IsFirst (faults.unknown line vars.now name.now ++ faults.if_so stood (faults.RepeatedName line name.now))) }
{
    known(line, vars, name)?;
    once(line, stood, name)
}

/// Refuses names of which one stands twice.
pub(crate) fn each_once(line: u32, names: &[Name]) -> Result<(), CheckFault>
    ensures none { OnOk result (faults.repeated_in line [] names.now ≡ []) }
    ensures fault { IfErr result (IsFirst (faults.repeated_in line [] names.now)) }
{
    for i in 0..names.len() {
        let name = &names[i];
        once(line, is_among(&names[..i], name), name)?;
    }
    Ok(())
}
