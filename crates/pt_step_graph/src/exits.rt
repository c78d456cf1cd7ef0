/// Where an instruction goes on to, beside the targets of the handler rows around it.
#[derive(Clone, Copy, Debug, PartialEq, Eq)]
pub struct Exits {
    /// The place behind it, if it goes on there.
    pub onward: Option<usize>,
    /// The place that it names, if it goes there.
    pub aside: Option<usize>,
    /// It may stay at its place.
    pub again: bool,
    /// The number of a bundle of places to which what it holds may go on.
    pub held: Option<usize>,
}
