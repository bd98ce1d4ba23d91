//! The nets of a netlist by their names.
ghost use Rattle.std.specs.Prelude.{◌≡◌, ◌≤◌, IfOk, []};
ghost use Rattle.layout_files.specs.Cursors.{size};
ghost use Rattle.layout_files.specs.Reading.{AreAdded, IsNetRead};

use crate::cursor::Cursor;
use blif::NetNames;
use line_text::NameSet;
use std::alloc::AllocError;
use strip_files::Fault;

/// The number of the net of that name, or 0 if there is none; then the text differs.
pub(crate) fn net_named(cursor: &mut Cursor<'_>, names: &NameSet<'_>, name: &[u8]) -> u32
    ensures read { IsNetRead names.now name.now cursor.old result cursor.new }
    ensures shorter { size cursor.new ≤ size cursor.old }
{
    let number = names.number(name);
    if number >= names.len() || number > u32::MAX as usize {
        cursor.fail(Fault::UnknownNet);
        return 0;
    }
    number as u32
}

/// Adds the names of the nets, in order.
pub(crate) fn add_names<'c>(names: &mut NameSet<'c>, nets: &'c NetNames) -> Result<(), AllocError>
    requires { names.old ≡ [] }
    ensures { IfOk result (λ _. AreAdded nets.now names.new) }
{
    for number in 0..nets.len() {
        names.add(nets.name(number))?;
    }
    Ok(())
}
