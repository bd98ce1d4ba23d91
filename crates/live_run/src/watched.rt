//! A live service that warns when it is nearly full.
ghost use Rattle.std.specs.Prelude.{◌≡◌, [], IfOk, OnOk};

use crate::warnings::Warnings;
use line_service::Answers;
use live_input::LiveLines;
use service_core::Service;
use std::alloc::{AllocError, AllocGlobal};
use std::io::Eprint;
use strips::DeviceGraph;

/// After how many lines it looks whether it is nearly full.
const LINES: u64 = 1_024;

/// A live service that warns when it is nearly full. It answers as the service does.
pub(crate) struct Watched<'h, 'g, H: Eprint> {
    rt: &'h H,
    pub(crate) lines: LiveLines<'g>,
    warnings: Warnings,
}

impl<'h, 'g, H: Eprint + AllocGlobal> Watched<'h, 'g, H> {
    ghost use Rattle.live_input.specs.Serving.{begins_on, is_ready, state_in};

    /// A service that has taken no line, and has warned of nothing. The core must have admitted no
    /// tenancy, and the texts of one may take so many bytes.
    pub(crate) fn new(rt: &'h H, text_limit: u64, graph: &'g DeviceGraph, core: Service) -> Self
        requires { core.histories ≡ [] }
        ensures ready { is_ready result.lines }
        ensures state { state_in result.lines ≡ begins_on core graph.now }
    {
        Watched {
            rt,
            lines: LiveLines::new(rt.alloc(), graph, core),
            warnings: Warnings::new(rt.alloc(), text_limit),
        }
    }

    /// Ends the service.
    pub(crate) fn close(self) {
        let Watched {
            rt: _,
            lines,
            warnings: _,
        } = self;
        lines.close();
    }
}

impl<H: Eprint> Answers for Watched<'_, '_, H> {
    ghost use Rattle.live_input.specs.Serving.{AnswersLine, is_ready, state_in};

    ghost is_ready = { λ watched. is_ready watched.lines };

    ghost answers = { λ old number line reply new.
        AnswersLine (state_in old.lines) number line reply (state_in new.lines) };

    fn answer(&mut self, number: u64, line: &[u8]) -> Result<Vec<u8>, AllocError> {
        let reply = self.lines.answer(number, line)?;
        if number % LINES == 0 {
            self.warnings.look(self.rt, &self.lines);
        }
        Ok(reply)
    }
}
