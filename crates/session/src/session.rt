// The session itself: what it holds.
ghost use Rattle.std.specs.Prelude.{◌≡◌, false};

use arithmetic::standing::StandingFlags;
use engine_choice::AnyEngine;
use meter::meter::Meter;
use rounding::rules::AnyRule;

mod calculations;
mod commands;
mod lines;
mod polls;
mod setups;

// What the forms work on once the meter is set up: the meter, and the record of flags.
#[derive(Drop)]
struct Desk {
    meter: Meter<AnyEngine, AnyRule>,
    standing: StandingFlags,
    // A poll begins and ends within one line.
    ghost idle: { meter.model.pending ≡ false },
}

// There is a meter from the start; until a line has set it up, `ready` keeps every other line away from it. The project's rules fix this
// form: the console holds a built-in meter with a flag, no Option of a meter.
#[derive(Drop)]
pub struct Session {
    desk: Desk,
    ready: bool,
}
