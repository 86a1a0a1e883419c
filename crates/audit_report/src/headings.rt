use packet_heads::Endpoint;

/// What the first line of a connection's section says of its opening.
#[derive(Clone, Copy)]
pub struct SectionHeading {
    /// Who sent the opening SYN.
    pub client: Endpoint,
    pub server: Endpoint,
    /// The record of that SYN.
    pub rec: u32,
}

// A capture may open a connection with every packet.
const _: () = prove!(size_of::<SectionHeading>() <= 20);
