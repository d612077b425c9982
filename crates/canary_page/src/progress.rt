//! How far the drawing of a page has come.

/// Gets reports of how far the drawing of a page has come.
pub trait DrawingProgress {
    /// So many services are to be drawn.
    fn begin(&mut self, services: u64);

    /// One more service was drawn.
    fn drawn(&mut self);
}
