// The meter itself: what it holds.
use crate::address::Address;
use std::marker::Model;
use window::window::Window;

mod computing;
mod polls;
mod replies;

#[derive(Drop)]
pub struct Meter<E, R> {
    address: Address,
    pending: bool,
    engine: E,
    rule: R,
    window: Window,
}

// Contracts see the reference model in place of address, pending poll and window.
impl<E, R> Model for Meter<E, R> {
    ghost use Rattle.meter.specs.Meters.{Seen};

    ghost Value = { Seen E R };

    ghost use Rattle.window.specs.Window.{standing};

    ghost view = { λ m. record { model = record { address = m.address.number; pending = m.pending; replies = standing m.window }; engine = m.engine; rule = m.rule } };
}
