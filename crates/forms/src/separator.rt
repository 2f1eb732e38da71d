//! What stands between the words of a text and what ends its lines.

/// Stands between two words of a line.
pub const SPACE: u8 = b' ';

/// Ends a line.
pub const LINE_FEED: u8 = b'\n';
