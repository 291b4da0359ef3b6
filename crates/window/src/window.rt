// The window: the ring of standing replies with the words that add them up.
ghost use Rattle.window.specs.Held.{Holds};

use crate::ring::Ring;
use crate::words::Words;

mod asks;
mod changes;
mod peaks;
mod reads;

#[derive(Drop)]
pub struct Window {
    ring: Ring,
    words: Words,
    ghost held: { Holds ring words },
}
