//! What a mangler is asked for.

/// What a mangler is asked for.
#[derive(Clone, Copy, Debug, PartialEq, Eq)]
pub struct MangleOptions {
    /// Whether the variables of a script, which other scripts of a page see, may change too.
    pub toplevel: bool,
}
