//! Adds names of nets to those of the lines above.
ghost use Rattle.std.specs.Prelude.{◌≡◌, ◌++◌, [], ◌∷◌, IfOk, IfNone, option_map};
ghost use Rattle.blif.specs.Numbering.{numbers_of};
ghost use Rattle.blif.specs.Names.{first_of, number_of, texts, with_name, with_names};
ghost use Rattle.blif.specs.Repeats.{repeats};

use crate::nets::Nets;
use line_text::NameSet;
use std::alloc::AllocError;

/// Adds the name if it is new, and appends its number. Returns an error if memory runs out or the
/// number doesn't fit.
fn number_new<'t>(
    nets: &mut NameSet<'t>,
    name: &'t [u8],
    numbers: &mut Nets,
) -> Result<(), AllocError>
    ensures nets { IfOk result (λ _. nets.new ≡ with_name nets.old name.now) }
    ensures numbers { IfOk result (λ _. numbers.new
        ≡ numbers.old ++ number_of nets.old name.now ∷ []) }
{
    let place = nets.add_numbered(name)?;
    let Ok(number) = u32::try_from(place) else {
        return Err(AllocError);
    };
    numbers.push(number)?;
    Ok(())
}

/// Adds those of the names that are new, and appends the numbers of all.
pub fn number_all<'t>(
    nets: &mut NameSet<'t>,
    names: &[&'t [u8]],
    numbers: &mut Nets,
) -> Result<(), AllocError>
    ensures nets { IfOk result (λ _. nets.new ≡ with_names nets.old (texts names.now)) }
    ensures numbers { IfOk result (λ _. numbers.new
        ≡ numbers.old ++ numbers_of nets.old (texts names.now)) }
{
    for name in names {
        number_new(nets, name, numbers)?;
    }
    Ok(())
}

/// Adds the names up to the first that is already in the set, and returns that one.
pub fn add_different<'t>(
    set: &mut NameSet<'t>,
    names: &[&'t [u8]],
) -> Result<Option<&'t [u8]>, AllocError>
    ensures repeated { IfOk result (λ r. option_map (λ name. name.now) r
        ≡ first_of (repeats set.old (texts names.now))) }
    ensures names { IfOk result (λ r. IfNone r (set.new ≡ set.old ++ texts names.now)) }
{
    for name in names {
        if !set.add(name)? {
            return Ok(Some(*name));
        }
    }
    Ok(None)
}
