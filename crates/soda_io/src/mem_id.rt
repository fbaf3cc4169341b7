// An id that was given, in memory.
#[derive(Drop)]
pub(crate) struct MemId {
    pub(crate) name: String,
    pub(crate) opened: bool,
    pub(crate) place: usize,
}
