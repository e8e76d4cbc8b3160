//! What commands take.

/// What a command takes: an option, or a value by its place alone.
#[derive(Clone, Copy)]
pub(crate) struct Parameter<'a> {
    /// The name of the option, without the dashes, or of the place.
    pub name: &'a str,
    pub kind: ParameterKind<'a>,
    pub help: &'a str,
}

/// How often it may be there, with what its value is in the help.
#[derive(Clone, Copy)]
pub(crate) enum ParameterKind<'a> {
    /// `--name VALUE`, once at most.
    Optional(&'a str),
    /// `--name VALUE`, once.
    Required(&'a str),
    /// `--name VALUE`, again and again.
    Repeated(&'a str),
    /// `VALUE`, once.
    Place(&'a str),
    /// `--name`, once at most.
    Flag,
}
