// Division engines: what an engine promises, the whole quotient that any of them yields, and `digits`, the plainest one.
// An engine only estimates. It never divides but by powers of two, and nothing above this crate divides otherwise.
#![tactic(auto)]

pub mod digits;
pub mod interface;
pub mod meaning;
pub mod question;
pub mod quotient;

pub use interface::Engine;
pub use meaning::Log;
pub use question::Question;
pub use quotient::whole_quotient;
