// The greatest standing reply.
use rounding::encoding::Encoding;

#[derive(Clone, Copy)]
pub struct Peak {
    // Counted from 1 at the oldest reply.
    pub place: usize,
    pub encoding: Encoding,
}
