//! Why what is given for a verb is refused.

/// What is wrong with the names, the rights or the arguments that a call gives for a verb.
#[derive(Clone, Copy)]
pub enum VerbFault {
    /// The names are empty or all spaces.
    BadNames,
    /// A letter of the rights isn't `r`, `w`, `x` or `d`.
    BadBits,
    /// An argument isn't one that a verb may have.
    BadArgs,
}
