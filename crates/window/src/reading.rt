// A reading: a finite encoding, so that no NaN and no infinity ever gets into a window.
ghost use Rattle.std.specs.Prelude.{◌≡◌, true, false, MatchOption};
ghost use Rattle.rounding.specs.Format.{binary32, is_finite};

use rounding::encoding::Encoding;

#[derive(Clone, Copy)]
pub struct Reading {
    encoding: Encoding,
    ghost finite: { is_finite binary32 encoding.bits ≡ true },
}

impl Reading {
    // Refuses the NaNs and the infinities, and nothing else. So `None` says all that a fault would, and no TryFrom is needed.
    pub fn new(encoding: Encoding) -> Option<Reading>
        ensures { MatchOption result (is_finite binary32 encoding.bits ≡ false) (λ reading. (is_finite binary32 encoding.bits ≡ true) × (reading.encoding ≡ encoding)) }
    {
        if encoding.is_finite() {
            Some(Reading { encoding })
        } else {
            None
        }
    }

    pub fn encoding(self) -> Encoding
        ensures { result ≡ self.encoding }
    {
        self.encoding
    }
}
