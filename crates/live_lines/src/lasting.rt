//! Lines of the operator with names that are kept.
ghost use Rattle.std.specs.Prelude.{◌≡◌, IfOk};
ghost use Rattle.live_lines.specs.Prelude.{named_operator};

use line_text::NameSet;
use script_text::OperatorLine;
use std::alloc::{AllocError, Global};

/// Keeps the names of the operator's lines to the program's end, each once.
#[derive(Drop)]
pub(crate) struct Lasting {
    alloc: Global,
    names: NameSet<'static>,
}

impl Lasting {
    pub(crate) fn new(alloc: Global) -> Self {
        Lasting {
            alloc,
            names: NameSet::new(alloc),
        }
    }

    /// A copy of the name that is kept to the program's end.
    fn name(&mut self, name: &[u8]) -> Result<&'static [u8], AllocError>
        ensures { IfOk result (λ kept. kept.now ≡ name.now) }
    {
        let number = self.names.number(name);
        if number < self.names.len() {
            return Ok(self.names.name(number));
        }
        let kept: &'static [u8] = Vec::from_slice(self.alloc, name)?.leak();
        let _ = self.names.add(kept)?;
        Ok(kept)
    }

    /// The line with a copy of its name that is kept.
    pub(crate) fn line(
        &mut self,
        line: OperatorLine<&[u8]>,
    ) -> Result<OperatorLine<&'static [u8]>, AllocError>
        ensures { IfOk result (λ kept. named_operator kept ≡ named_operator line.entry) }
    {
        match line {
            OperatorLine::Admit(name, width) => Ok(OperatorLine::Admit(self.name(name)?, width)),
            OperatorLine::Evict(name) => Ok(OperatorLine::Evict(self.name(name)?)),
            OperatorLine::Move(name, offset) => Ok(OperatorLine::Move(self.name(name)?, offset)),
            OperatorLine::List => Ok(OperatorLine::List),
            OperatorLine::Owners => Ok(OperatorLine::Owners),
            OperatorLine::Step(name, count) => Ok(OperatorLine::Step(self.name(name)?, count)),
            OperatorLine::Take(name) => Ok(OperatorLine::Take(self.name(name)?)),
            OperatorLine::Put(number) => Ok(OperatorLine::Put(number)),
        }
    }
}
