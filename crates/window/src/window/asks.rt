// What an average of a window asks an engine for.
ghost use Rattle.std.specs.Prelude.{◌≡◌, ◌<◌, length, MatchResult};
ghost use Rattle.window.specs.Average.{sum_sign, sum_size, sum_unit};
ghost use Rattle.window.specs.Window.{standing};
ghost use Rattle.window.specs.Due.{Due};

use super::Window;
use crate::ask::Ask;
use crate::average::Average;
use crate::fault::WindowFault;

impl Window {
    // The sum over the number of standing replies: for the mean their own sum, for the mean square that of their squares.
    pub fn ask(&self, average: Average) -> Result<Option<Ask>, WindowFault>
        ensures { MatchResult result (λ ask. (0 < length (standing self.now)) × Due (sum_sign average (standing self.now)) (sum_size average (standing self.now)) (length (standing self.now)) (sum_unit average) ask) (λ fault. (length (standing self.now) ≡ 0) × (fault ≡ WindowFault.Empty)) }
    {
        let count = self.ring.count();
        if count == 0 {
            return Err(WindowFault::Empty);
        }
        match average {
            Average::Mean => {
                let sum = self.words.sum();
                Ok(Ask::of(sum.negative, &sum.size, count, 149))
            }
            Average::MeanSquare => {
                let sum = self.words.sum_of_squares();
                Ok(Ask::of(false, &sum, count, 298))
            }
        }
    }
}
