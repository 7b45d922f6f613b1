//! Law: the capture of a run.

ghost use Rattle.lab_capture.specs.Laws.{OneCapture};

/// What is tapped at the entries of a journal, in their rounds, has one capture: its octets are determined.
pub fn one_capture()
    ensures { OneCapture }
{}
