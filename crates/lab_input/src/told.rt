//! Faults that are reported with a text or a number.

ghost use Rattle.std.specs.Prelude.{◌≡◌, IfOk};
ghost use Rattle.lab_input.specs.Names.{repeated_if as repeated_if_lem};
ghost use Rattle.lab_input.specs.Counts.{over_limit};

use crate::bad::BadInput;
use bgp_types::{Name, NoMemory};
use std::alloc::Global;

/// Returns the fault of a repeated text, if the test is true.
pub(crate) fn repeated_if(
    alloc: Global,
    again: bool,
    text: &str,
) -> Result<Option<BadInput>, NoMemory>
    ensures { IfOk result (λ bad. bad ≡ repeated_if_lem again text.now) }
{
    if !again {
        return Ok(None);
    }
    Ok(Some(BadInput::Repeated(Name::from_text(alloc, text)?)))
}

/// Returns the fault of a count above its limit.
pub(crate) fn over(
    alloc: Global,
    name: &str,
    most: u64,
    n: u64,
) -> Result<Option<BadInput>, NoMemory>
    ensures { IfOk result (λ bad. bad ≡ over_limit name.now most n) }
{
    if n <= most {
        return Ok(None);
    }
    Ok(Some(BadInput::Limit(Name::from_text(alloc, name)?, n)))
}

/// Returns the first of two faults.
pub(crate) fn first(fault: Option<BadInput>, later: Option<BadInput>) -> Option<BadInput>
    ensures { result ≡ option_or fault later }
{
    match fault {
        Some(bad) => Some(bad),
        None => later,
    }
}

ghost use Rattle.std.specs.Option.{option_or};
