//! Making a tenancy's script.
ghost use Rattle.std.specs.Prelude.{◌≡◌, ◌<◌, ◌^◌, Some, None, length, IfErr, IfOk};
ghost use Rattle.tenancy_script.specs.Faults.{refusal_of};
ghost use Rattle.tenancy_script.specs.Says.{IsOf};

use crate::fault::{ScriptFault, text_fault};
use crate::script::{ScriptParameters, TenancyScript};
use script_text::is_name;

impl<'a> TenancyScript<'a> {
    /// Returns the script of a tenancy of that name with that text, or why it has no script.
    pub fn new(wishes: ScriptParameters<'a>, text: &'a [u8]) -> Result<Self, ScriptFault>
        requires { length text.now < 2 ^ 63 }
        ensures refused { IfErr result (λ fault.
            refusal_of wishes.entry.name.now text.now ≡ Some fault) }
        ensures told { IfOk result (λ script. refusal_of wishes.entry.name.now text.now ≡ None) }
        ensures of { IfOk result (λ script. IsOf wishes.entry text.now script) }
    {
        let ScriptParameters {
            name,
            width,
            seed,
            effort,
        } = wishes;
        if !is_name(name) {
            return Err(ScriptFault::BadName);
        }
        if let Some(fault) = text_fault(text) {
            return Err(fault);
        }
        Ok(TenancyScript {
            name,
            width,
            seed,
            effort,
            text,
        })
    }
}
