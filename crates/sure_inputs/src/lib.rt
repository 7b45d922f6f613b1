//! Inputs whose script alone decides what becomes of its grafts.
#![tactic(auto)]

ghost use Rattle.sure_inputs.specs.Laws.{SureInputsAreSure};

/// Where an accepted input is sure, so is the laboratory that it describes: the sessions that the script moves are established by
/// their remotes' default openings, and stay so by the UPDATEs of the script.
pub fn sure_inputs_are_sure()
    ensures { SureInputsAreSure }
{}
