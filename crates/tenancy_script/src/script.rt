//! The script of a tenancy.
ghost use Rattle.std.specs.Prelude.{◌≡◌, true, None};
ghost use Rattle.script_text.specs.Script.{is_name};
ghost use Rattle.tenancy_script.specs.Faults.{text_fault};

/// The parameters of a tenancy's script.
#[derive(Clone, Copy)]
pub struct ScriptParameters<'a> {
    pub name: &'a [u8],
    /// The columns with which it is admitted; `None` if it is admitted already.
    pub width: Option<u32>,
    pub seed: u64,
    pub effort: u32,
}

/// The script of one tenancy, with its netlist.
#[derive(Clone, Copy)]
pub struct TenancyScript<'a> {
    pub(crate) name: &'a [u8],
    pub(crate) width: Option<u32>,
    pub(crate) seed: u64,
    pub(crate) effort: u32,
    pub(crate) text: &'a [u8],
    ghost named: { is_name name.now ≡ true },
    ghost told: { text_fault text.now ≡ None },
}
