//! Why no further line of a script is carried out.

/// Why no further line is carried out.
pub(crate) enum LineStop {
    /// The sink failed.
    Sink,
    Memory,
}
