/// Memory that copies are read into. It is taken when they are mounted.
#[derive(Debug, Drop)]
pub(crate) struct Room {
    /// A piece of a record.
    pub piece: Vec<u8>,
    /// The area that a copy passes as.
    pub area: Vec<u8>,
}
