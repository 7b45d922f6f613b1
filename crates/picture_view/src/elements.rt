//! Elements of an SVG.

ghost use Rattle.std.specs.Prelude.{◌≡◌, ◌++◌, OnOk, string_bytes};
ghost use Rattle.picture_view.specs.Elements.{escaped_char, escaped, text_start, text_at, number_at, colour, path_start, row_line, down_line};

use graft_edge::NoMemory;
use std::fmt::Write;

/// A character, with an entity for each of the five that mean something else in XML.
fn push_escaped_char(text: &mut String, character: char) -> Result<(), NoMemory>
    ensures { OnOk result (string_bytes text.new ≡ string_bytes text.old ++ escaped_char character) }
{
    match character {
        '&' => text.push_str("&amp;")?,
        '<' => text.push_str("&lt;")?,
        '>' => text.push_str("&gt;")?,
        '"' => text.push_str("&quot;")?,
        '\'' => text.push_str("&#39;")?,
        _ => text.push(character)?,
    }
    Ok(())
}

/// Words, as they stand in an element.
#[tactic(auto, unfolding(crate::specs::Elements::escaped))]
pub(crate) fn push_escaped(text: &mut String, words: &str) -> Result<(), NoMemory>
    ensures { OnOk result (string_bytes text.new ≡ string_bytes text.old ++ escaped words.now) }
{
    for character in words.chars() {
        push_escaped_char(text, character)?;
    }
    Ok(())
}

/// The beginning of a text of a class at a place.
#[tactic(auto, unfolding(crate::specs::Elements::text_start))]
pub(crate) fn push_text_start(
    text: &mut String,
    class: &str,
    x: usize,
    y: usize,
) -> Result<(), NoMemory>
    ensures { OnOk result (string_bytes text.new ≡ string_bytes text.old ++ text_start class.now x y) }
{
    write!(text, "<text class='{class}' x='{x}' y='{y}'>")?;
    Ok(())
}

/// Words of a class at a place.
#[tactic(auto, unfolding(crate::specs::Elements::text_at))]
pub(crate) fn push_text_at(
    text: &mut String,
    class: &str,
    x: usize,
    y: usize,
    words: &str,
) -> Result<(), NoMemory>
    ensures { OnOk result (string_bytes text.new ≡ string_bytes text.old ++ text_at class.now x y words.now) }
{
    push_text_start(text, class, x, y)?;
    push_escaped(text, words)?;
    text.push_str("</text>\n")?;
    Ok(())
}

/// A number of a class at a place.
#[tactic(auto, unfolding(crate::specs::Elements::number_at))]
pub(crate) fn push_number_at(
    text: &mut String,
    class: &str,
    x: usize,
    y: usize,
    number: usize,
) -> Result<(), NoMemory>
    ensures { OnOk result (string_bytes text.new ≡ string_bytes text.old ++ number_at class.now x y number) }
{
    push_text_start(text, class, x, y)?;
    write!(text, "{number}</text>\n")?;
    Ok(())
}

/// The beginning of a path of a class at a place.
#[tactic(auto, unfolding(crate::specs::Elements::path_start))]
pub(crate) fn push_path_start(
    text: &mut String,
    class: &str,
    x: usize,
    y: usize,
) -> Result<(), NoMemory>
    ensures { OnOk result (string_bytes text.new ≡ string_bytes text.old ++ path_start class.now x y) }
{
    write!(text, "<path class='{class}' d='M{x} {y}")?;
    Ok(())
}

/// The beginning of a path in the colour of a peering.
#[tactic(auto, unfolding(crate::specs::Elements::path_start))]
pub(crate) fn push_coloured_start(
    text: &mut String,
    class: &str,
    peering: usize,
    x: usize,
    y: usize,
) -> Result<(), NoMemory>
    ensures { OnOk result (string_bytes text.new ≡ string_bytes text.old ++ path_start (class.now ++ colour peering) x y) }
{
    let colour = peering % 7;
    write!(text, "<path class='{class} c{colour}' d='M{x} {y}")?;
    Ok(())
}

/// A line in the colour of a peering along a row, up to its end tag.
#[tactic(auto, unfolding(crate::specs::Elements::row_line))]
pub(crate) fn push_row_line(
    text: &mut String,
    class: &str,
    peering: usize,
    x: usize,
    y: usize,
    to: usize,
) -> Result<(), NoMemory>
    ensures { OnOk result (string_bytes text.new ≡ string_bytes text.old ++ row_line class.now peering x y to) }
{
    push_coloured_start(text, class, peering, x, y)?;
    write!(text, "H{to}")?;
    Ok(())
}

/// A line down.
#[tactic(auto, unfolding(crate::specs::Elements::down_line))]
pub(crate) fn push_down_line(
    text: &mut String,
    class: &str,
    x: usize,
    y: usize,
    to: usize,
) -> Result<(), NoMemory>
    ensures { OnOk result (string_bytes text.new ≡ string_bytes text.old ++ down_line class.now x y to) }
{
    push_path_start(text, class, x, y)?;
    write!(text, "V{to}'/>\n")?;
    Ok(())
}
