//! The OPEN of a story.

ghost use Rattle.std.specs.Prelude.{◌≡◌};
ghost use Rattle.std.specs.Option.{option_copied};
ghost use Rattle.story_view.specs.Readings.{open_put};

use bgp_story::Line;
use bgp_types::{Message, OpenMsg};

/// Returns the OPEN of a line that puts one.
pub fn open_put(line: Option<&Line>) -> Option<&OpenMsg>
    ensures { option_copied result ≡ open_put (option_copied line.entry) }
{
    match line {
        Some(Line::Put(Message::OpenMsg(first))) => Some(first),
        _ => None,
    }
}
