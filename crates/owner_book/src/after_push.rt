//! What a line does to a file beside the push that it puts there.

/// What a line does to a file once its push is over it.
#[derive(Clone, Copy, Debug, Drop)]
pub enum AfterPush {
    /// It leaves the file so.
    Leave,
    /// It cuts the file to so many bytes, or extends it to them by bytes that nobody wrote.
    Resize(u64),
    /// It freezes the file.
    Freeze,
}
