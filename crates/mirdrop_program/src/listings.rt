//! Listings that are refused.
ghost use Rattle.std.specs.Prelude.{◌≡◌, ◌++◌, OnOk, string_bytes};
ghost use Rattle.mirdrop_program.specs.Lines as lines;

use crate::parts::{put_line_feed, put_numbered};
use std::alloc::AllocError;

/// Puts the line of a text that is no listing, with the number of its first wrong line.
pub fn put_listing_line(out: &mut String, line: u32) -> Result<(), AllocError>
    ensures { OnOk result (string_bytes out.new ≡ string_bytes out.old ++ lines.listing_line line) }
{
    put_numbered(out, "refused: 8 BadListing at line ", line)?;
    put_line_feed(out)
}

/// Puts the line of a listing whose graph breaks a rule, by the numbers of the rule and of the line.
pub fn put_graph_line(out: &mut String, fault: u8, line: u32) -> Result<(), AllocError>
    ensures { OnOk result (string_bytes out.new ≡ string_bytes out.old ++ lines.graph_line fault line) }
{
    put_numbered(out, "refused: 9 G", u32::from(fault))?;
    put_numbered(out, " at line ", line)?;
    put_line_feed(out)
}
