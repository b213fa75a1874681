//! Contains the markup between the texts that a page shows without its script.

/// The start of the verdict's only list entry, up to its class.
pub const ENTRY: &[u8] = b"<li class=\"";

/// The part of the verdict's only list entry that follows the class.
pub const ENTRY_CLASS: &[u8] = b"\">";

/// The heading of the logs.
pub const LOGS: &[u8] = b"<h2>What happened, from the logs of the nodes' handlers</h2>\n";

/// The start of the table of logs, up to the headings of the nodes.
pub const TABLE: &[u8] = b"<table>\n<tr><th>line</th>";

/// The end of the headings of the table.
pub const HEADS_END: &[u8] = b"</tr>\n";

/// The end of the table.
pub const TABLE_END: &[u8] = b"</table>\n";

/// The text before the number of lines that are left out.
pub const MORE: &[u8] = b"<p>and ";

/// The text after the number of lines that are left out.
pub const MORE_END: &[u8] = b" more lines</p>\n";

/// The heading of a schedule's run.
pub const RUN: &[u8] =
    b"<h2>What agents of this project do, from a schedule: not what happened</h2>\n";

/// The start of an image, up to the picture data in its address.
pub const IMAGE: &[u8] =
    b"<p><img alt=\"The run of the schedule, from the top down\" src=\"data:image/svg+xml,";

/// The end of an image.
pub const IMAGE_END: &[u8] = b"\"></p>\n";
