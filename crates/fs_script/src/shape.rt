//! The numbers of a job.

/// What the header of a script says.
#[derive(Clone, Copy, Debug, PartialEq, Eq)]
pub struct Shape {
    pub servers: u32,
    pub clients: u32,
    /// The bytes of a slot.
    pub chunk: u32,
    /// Slots of shared memory, for each client.
    pub shmem: u32,
    /// Slots of the spill file, for each client.
    pub spill: u32,
}
