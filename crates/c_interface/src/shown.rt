// A meter given back to C as numbers.
ghost use Rattle.std.specs.Prelude.{◌≡◌, true, is_some, if◌then◌else◌};
ghost use Rattle.c_interface.specs.Held.{held, cells, shown, again};

use crate::data::MeterData;
use engine_choice::AnyEngine;
use meter::meter::Meter;
use rounding::rules::AnyRule;

// The standing replies, oldest first, with zeros behind them. The replay's list of encodings would have to be copied to be turned into numbers.
fn replies_of(meter: &Meter<AnyEngine, AnyRule>) -> [u32; 288]
    ensures { result ≡ cells meter.now.model.replies }
{
    let mut list = [0; 288];
    for i in 0..meter.standing() {
        if let Some(reply) = meter.reply_at(i) {
            list[i] = reply.to_bits();
        }
    }
    list
}

fn pending_of(meter: &Meter<AnyEngine, AnyRule>) -> u8
    ensures { result ≡ (if meter.now.model.pending then 1 else 0) }
{
    meter.is_pending() as u8
}

// The meter, with the engine and the rule that C named. It will be restored as it is here.
pub fn shown(numbers: &MeterData, meter: &Meter<AnyEngine, AnyRule>) -> MeterData
    requires { is_some (held numbers.now) ≡ true }
    ensures is { result ≡ shown numbers.now meter.now.model }
    ensures again { held result ≡ again (held numbers.now) meter.now.model }
{
    let replies = replies_of(meter);
    MeterData {
        replies,
        standing: meter.standing() as u16,
        address: meter.address().number(),
        engine: numbers.engine,
        rule: numbers.rule,
        pending: pending_of(meter),
    }
}
