// A meter's standing replies for C: taken away from either end, read, and the greatest of them.
ghost use Rattle.std.specs.Prelude.{◌≡◌};
ghost use Rattle.meter.specs.Model.{refuses_empty, retired, retracted};
ghost use Rattle.c_interface.specs.Refusals.{answered};
ghost use Rattle.c_interface.specs.Held.{held};
ghost use Rattle.c_interface.specs.Calls.{next, less, less_refused, less_answer, retire_answer, retract_answer, no_peak, PeakAnswers, newest_answer};

use crate::answer::{CountAnswer, NewestAnswer, PeakAnswer};
use crate::data::MeterData;
use crate::refusal::Refusal;
use crate::restored::restored;
use crate::shown::shown;

// At which end a reply goes. An enum and no closure: its name stands in the contract, where a closure would be known by what it leaves behind a `&mut`.
#[derive(Clone, Copy)]
enum End {
    Oldest,
    Newest,
}

// The reply at this end goes.
#[inline(always)]
fn taken_away(meter: &MeterData, end: End) -> Result<CountAnswer, Refusal>
    ensures answer { answered result (less_refused meter.now) ≡ less_answer (less end) meter.now }
    ensures stands { held (answered result (less_refused meter.now)).meter ≡ next meter.now refuses_empty (less end) }
{
    let mut held = restored(meter)?;
    let standing = match end {
        End::Oldest => held.retire()?,
        End::Newest => held.retract()?,
    };
    Ok(CountAnswer {
        meter: shown(meter, &held),
        standing: standing as u16,
        refused: 0,
    })
}

#[inline(always)]
fn kept(meter: MeterData, refusal: Refusal) -> CountAnswer
    ensures { result ≡ less_refused meter refusal }
{
    CountAnswer {
        meter,
        standing: 0,
        refused: refusal.number(),
    }
}

// The oldest reply goes.
#[unsafe(no_mangle)]
pub extern "C" fn wozkerrim_retire(meter: MeterData) -> CountAnswer
    ensures answer { result ≡ retire_answer meter }
    ensures stands { held result.meter ≡ next meter refuses_empty retired }
{
    taken_away(&meter, End::Oldest).unwrap_or_else(|refusal| kept(meter, refusal))
}

// The newest reply goes.
#[unsafe(no_mangle)]
pub extern "C" fn wozkerrim_retract(meter: MeterData) -> CountAnswer
    ensures answer { result ≡ retract_answer meter }
    ensures stands { held result.meter ≡ next meter refuses_empty retracted }
{
    taken_away(&meter, End::Newest).unwrap_or_else(|refusal| kept(meter, refusal))
}

#[inline(always)]
fn peaked(meter: &MeterData) -> Result<PeakAnswer, Refusal>
    ensures { PeakAnswers meter.now (answered result no_peak) }
{
    let peak = restored(meter)?.peak()?;
    Ok(PeakAnswer {
        place: peak.place as u16,
        bits: peak.encoding.to_bits(),
        refused: 0,
    })
}

// The greatest standing reply by value, the oldest among equals.
#[unsafe(no_mangle)]
pub extern "C" fn wozkerrim_peak(meter: MeterData) -> PeakAnswer
    ensures { PeakAnswers meter result }
{
    peaked(&meter).unwrap_or_else(|refusal| PeakAnswer {
        place: 0,
        bits: 0,
        refused: refusal.number(),
    })
}

// The newest standing reply, where one stands.
#[unsafe(no_mangle)]
pub extern "C" fn wozkerrim_newest(meter: MeterData) -> NewestAnswer
    ensures { result ≡ newest_answer meter }
{
    match restored(&meter) {
        Ok(held) => held.newest().into(),
        Err(unknown) => NewestAnswer {
            bits: 0,
            present: 0,
            refused: unknown.number(),
        },
    }
}
