//! How messages stand in an input.

/// How messages stand in an input.
#[derive(Clone, Copy)]
pub enum InputForm {
    /// As frames, two bytes of length, high byte first, and the message; or in lines as `replay`
    /// reads and writes them, which begin with a greater byte than a length can.
    Plain,
    /// As lines, each a message in hexadecimal.
    HexLines,
}
