//! The text of a refused input.

ghost use Rattle.std.specs.Prelude.{◌≡◌, ◌++◌, OnOk, IfOk, string_bytes};
ghost use Rattle.lab_report.specs.BadText.{fault_text, bad_line};

use graft_edge::{Items, NoMemory, Octets};
use lab_input::BadInput;
use std::alloc::Global;
use std::fmt::Write;

/// What is wrong, in words.
fn push_fault(text: &mut String, bad: &BadInput) -> Result<(), NoMemory>
    ensures { OnOk result (string_bytes text.new ≡ string_bytes text.old ++ fault_text bad.now) }
{
    match bad {
        BadInput::NotToml => text.push_str("not toml")?,
        BadInput::Shape(path) => write!(text, "shape {path}")?,
        BadInput::Limit(path, number) => write!(text, "limit {path} {number}")?,
        BadInput::Unknown(name) => write!(text, "unknown {name}")?,
        BadInput::Repeated(name) => write!(text, "repeated {name}")?,
    }
    Ok(())
}

/// The line that tells why an input is refused.
#[tactic(auto, unfolding(crate::specs::BadText::bad_line))]
pub fn bad_text(alloc: Global, bad: &BadInput) -> Result<Octets, NoMemory>
    ensures { IfOk result (λ text. text ≡ bad_line bad.now) }
{
    let mut text = String::from_str(alloc, "bad input: ")?;
    push_fault(&mut text, bad)?;
    text.push_str("\n")?;
    Ok(Items::from_vec(text.into_bytes()))
}
