//! What is said of a text that is no journal.

ghost use Rattle.std.specs.Prelude.{◌≡◌, ◌++◌, IfOk};
ghost use Rattle.lab_input.specs.declared.bad.BadInput.TheVariants.{Shape};
ghost use Rattle.lab_hints.specs.Hints.{hint_line};
ghost use Rattle.lab_report.specs.BadText.{bad_line};
ghost use Rattle.lab_audit.specs.Told.{IsRefusal, line_text as line_text_lem, long_text as long_text_lem, undivided_text as undivided_text_lem};

use graft_edge::{Name, NoMemory, Octets};
use lab_hints::hint_text;
use lab_input::BadInput;
use lab_report::bad_text;
use std::alloc::Global;

/// The most bytes of a journal's text.
pub const MOST_TEXT: usize = 268_435_456;

/// Returns what is said of bytes that are refused as an input for a fault: the fault, and a hint.
pub fn refusal(alloc: Global, bytes: &[u8], bad: &BadInput) -> Result<Octets, NoMemory>
    ensures { IfOk result (IsRefusal bytes.now bad.now) }
{
    let mut text = bad_text(alloc, bad)?;
    let hint = hint_text(alloc, bytes, bad)?;
    text.extend(&hint)?;
    Ok(text)
}

/// Returns a fault, and a hint.
fn with_hint(alloc: Global, bad: &BadInput, hint: &str) -> Result<Octets, NoMemory>
    ensures { IfOk result (λ text. text ≡ bad_line bad.now ++ hint_line hint.now) }
{
    let mut text = bad_text(alloc, bad)?;
    text.extend(b"hint: ")?;
    text.extend(hint.as_bytes())?;
    text.extend(b"\n")?;
    Ok(text)
}

/// Returns what is said of a text that has more bytes than a journal's may have.
pub fn long_text(alloc: Global) -> Result<Octets, NoMemory>
    ensures { IfOk result (λ text. text ≡ long_text_lem) }
{
    let bad = BadInput::Limit(Name::from_text(alloc, "input")?, MOST_TEXT as u64 + 1);
    with_hint(
        alloc,
        &bad,
        "the text of a journal has at most 268435456 bytes",
    )
}

/// Returns what is said of a text that has no line `%% journal 1`.
pub(crate) fn undivided_text(alloc: Global) -> Result<Octets, NoMemory>
    ensures { IfOk result (λ text. text ≡ undivided_text_lem) }
{
    let bad = BadInput::Shape(Name::from_text(alloc, "journal")?);
    with_hint(
        alloc,
        &bad,
        "a journal is an input, a line %% journal 1, a line for each entry, and a line %% end, as graftlab journal writes it",
    )
}

/// Returns what is said of a text of which this line behind the dividing one, counted from 0, isn't as in a journal.
pub(crate) fn line_text(alloc: Global, line: usize) -> Result<Octets, NoMemory>
    ensures { IfOk result (λ text. text ≡ line_text_lem line) }
{
    let path = format!(in alloc; "journal[{line}]")?;
    let bad = BadInput::Shape(Name::from_string(path));
    with_hint(
        alloc,
        &bad,
        "behind the line %% journal 1 each line is CLOCK ACTOR KIND A B C in decimal, and the last one is %% end",
    )
}
