// A line of the log in the making. At most 256 bytes are put into one here.
pub use text_lines::Line as Row;
