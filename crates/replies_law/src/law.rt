//! The laws.
ghost use Rattle.replies_law.specs.Alone.{IsAlone, IsTheSame};
ghost use Rattle.replies_law.specs.OneOutput.{HasOneOutput};
ghost use Rattle.replies_law.specs.ReadBack.{IsOutputReadBack};

/// The reply to each act of a script is read back from what the program writes for the script,
/// whatever names and nets the tenants choose.
pub fn replies_are_read()
    ensures { IsOutputReadBack }
{}

/// A name's section of the output depends on the name's own lines, and on which of its admissions
/// were granted; on nothing else of a script, and not on the columns of the device.
pub fn own_lines_alone()
    ensures { IsTheSame }
{}

/// Delete everybody else from a script, and make the device as wide as the widest strip of the name
/// that is left: its section of the output has the same bytes.
pub fn alone_on_its_strip()
    ensures { IsAlone }
{}

/// The contract of a run determines every byte of its output, if memory doesn't run out.
pub fn one_output()
    ensures { HasOneOutput }
{}
