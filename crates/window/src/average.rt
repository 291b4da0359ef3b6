// Which average of the standing replies.

#[derive(Clone, Copy)]
pub enum Average {
    // Of the replies.
    Mean,
    // Of their squares.
    MeanSquare,
}
