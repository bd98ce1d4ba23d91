//! The passes of a placing, which follow from the size of its strip.
ghost use Rattle.std.specs.Prelude.{◌≡◌};
ghost use Rattle.one_user.specs.Prelude.{IsStripSize, pass_count, temperature_at};

use grid::Strip;
use strip_place::MAX_PASSES;

/// The temperature of the next pass after `passes` passes.
pub(crate) fn temperature_after(strip: Strip, passes: u32) -> u32
    requires { IsStripSize strip }
    ensures { result ≡ temperature_at strip passes }
{
    let mut temperature = strip.width + strip.rows;
    for _pass in 0..passes {
        temperature = 9 * temperature / 10;
    }
    temperature
}

/// The number of passes of a placing.
pub(crate) fn pass_count(strip: Strip) -> u32
    requires { IsStripSize strip }
    ensures { result ≡ pass_count strip }
{
    let mut temperature = strip.width + strip.rows;
    for passes in 0..MAX_PASSES {
        if temperature == 0 {
            return passes + 1;
        }
        temperature = 9 * temperature / 10;
    }
    unreachable!()
}
