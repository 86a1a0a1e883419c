/// The credit in bytes with which each window begins: of the connection always, of a stream until settings change it
/// (RFC 9113, 6.9.2).
pub const FIRST_WINDOW: u32 = 65_535;

/// The largest credit that a window may have (RFC 9113, 6.9.1).
pub const LARGEST_WINDOW: u32 = 0x7fff_ffff;
