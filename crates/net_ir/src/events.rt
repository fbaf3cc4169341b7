/// One event of a firing.
#[derive(Clone, Copy)]
pub enum Event {
    /// One item is taken from the queue of this number.
    Take(u32),
    /// One item is sent into the queue of this number.
    Send(u32),
    /// The firing ends. No queue is touched.
    Close,
}

/// How far a module has come.
#[derive(Clone, Copy)]
pub struct Turn {
    /// The firings that it has completed.
    pub fired: u64,
    /// The events that it has done in the running firing.
    pub part: u32,
}
