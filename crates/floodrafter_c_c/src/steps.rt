// The step in two operations.
ghost use Rattle.std.specs.Prelude.{◌≡◌};
ghost use Rattle.one_step.specs.OneStep.{gives_move};
ghost use Rattle.floodrafter_c.specs.Steps.{ends_in, moved_by};
ghost use Rattle.floodrafter_c.specs.Steps.{shown_start, shown_image};

use floodrafter_c::steps::{Moved, Shown, Sides};

#[unsafe(no_mangle)]
pub extern "C" fn floodrafter_start(text: &[u8]) -> Shown
    ensures { result ≡ shown_start text.now }
{
    floodrafter_c::steps::floodrafter_start(text)
}

#[unsafe(no_mangle)]
pub extern "C" fn floodrafter_image(text: &[u8], x: Sides) -> Shown
    ensures { result ≡ shown_image text.now (ends_in x) }
{
    floodrafter_c::steps::floodrafter_image(text, x)
}

#[unsafe(no_mangle)]
pub extern "C" fn floodrafter_decide(n: usize, x: Sides, k: Sides) -> Moved
    ensures { result ≡ moved_by (gives_move n (ends_in x) (ends_in k)) }
{
    floodrafter_c::steps::floodrafter_decide(n, x, k)
}
