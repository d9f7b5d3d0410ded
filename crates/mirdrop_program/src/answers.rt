//! Answers that are made whole before they are written.
/// A status of the program, and all that it writes with it.
#[derive(Drop)]
pub struct Answer {
    pub status: u8,
    pub text: Vec<u8>,
}
