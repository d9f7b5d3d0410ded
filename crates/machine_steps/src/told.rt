use mir_base::Event;

/// What a run told and has not handed on yet. A number that is printed stands apart, since a run that is not known to
/// keep the types of its values may print a number of any size.
#[derive(Clone, Copy)]
pub enum ToldEvents {
    Event(Event),
    Printed(i128),
}
