//! What a step of the reader comes to.

#[derive(Clone, Copy)]
pub(crate) enum Progress {
    /// To this place, with what is open there.
    Further(usize),
    /// The form is read, and this is the place after it. It lies in the slot: most steps lead further, and each call on
    /// the way hands on what the step comes to.
    Read(usize),
    /// Nothing more is in the text.
    End,
}
