use cfg_graph::GraphFault;

/// Why a text was not read as a graph. Lines are counted from 1.
#[derive(Clone, Copy, Debug)]
pub enum ListingError {
    /// No list of lines of the format: the first line that is none in its place, or the line behind the last.
    BadListing { line: u32 },
    /// The graph that it lists is not well formed: its first fault, and the line of that.
    BadGraph { fault: GraphFault, line: u32 },
    /// Memory was wanted and could not be had, or there are more lines than a number of 32 bits can count.
    Memory,
}
