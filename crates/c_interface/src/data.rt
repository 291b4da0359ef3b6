// A meter as C holds it: plain numbers, any of which may be wrong. C has no enum that is checked and
// no slice, so kinds are numbers and the count of replies stands beside their cells.
#[repr(C)]
#[derive(Clone, Copy)]
pub struct MeterData {
    // Encodings of the standing replies, oldest first; the cells behind them are not read.
    pub replies: [u32; 288],
    // How many stand.
    pub standing: u16,
    pub address: u8,
    // 0 digits, 1 radix4, 2 cubic.
    pub engine: u8,
    // 0 even, 1 away, 2 zero, 3 up, 4 down.
    pub rule: u8,
    // 1 while a poll is pending, else 0.
    pub pending: u8,
}
