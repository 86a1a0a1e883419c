//! The type byte and the flags of a frame (RFC 9113, 4.1 and 6): those of `specs/FrameType.antt`, and PRIORITY_FLAG,
//! which only a payload's reading asks for (`specs/Body.antt` of `h2_frames`).

/// The type of DATA (RFC 9113, 6.1).
pub const DATA: u8 = 0;

/// The type of HEADERS (RFC 9113, 6.2).
pub const HEADERS: u8 = 1;

/// The type of PRIORITY (RFC 9113, 6.3).
pub const PRIORITY: u8 = 2;

/// The type of RST_STREAM (RFC 9113, 6.4).
pub const RST_STREAM: u8 = 3;

/// The type of SETTINGS (RFC 9113, 6.5).
pub const SETTINGS: u8 = 4;

/// The type of PUSH_PROMISE (RFC 9113, 6.6).
pub const PUSH_PROMISE: u8 = 5;

/// The type of PING (RFC 9113, 6.7).
pub const PING: u8 = 6;

/// The type of GOAWAY (RFC 9113, 6.8).
pub const GOAWAY: u8 = 7;

/// The type of WINDOW_UPDATE (RFC 9113, 6.9).
pub const WINDOW_UPDATE: u8 = 8;

/// The type of CONTINUATION (RFC 9113, 6.10).
pub const CONTINUATION: u8 = 9;

/// END_STREAM, of DATA and HEADERS (RFC 9113, 6.1, 6.2).
pub const END_STREAM_FLAG: u8 = 0x1;

/// ACK, of SETTINGS (RFC 9113, 6.5).
pub const ACK_FLAG: u8 = 0x1;

/// END_HEADERS, of HEADERS, PUSH_PROMISE and CONTINUATION (RFC 9113, 6.2, 6.6, 6.10).
pub const END_HEADERS_FLAG: u8 = 0x4;

/// PADDED, of DATA, HEADERS and PUSH_PROMISE (RFC 9113, 6.1, 6.2, 6.6).
pub const PADDED_FLAG: u8 = 0x8;

/// PRIORITY, of HEADERS (RFC 9113, 6.2).
pub const PRIORITY_FLAG: u8 = 0x20;
