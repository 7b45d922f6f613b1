//! Octets are a capsule in one way at most, and have one first fault at most.

ghost use Rattle.std.specs.Prelude.{◌≡◌, ℕ, List};
ghost use Rattle.capsule_bytes.specs.Capsules.{IsCapsule, IsCapsuleOf, spell_capsule};
ghost use Rattle.capsule_bytes.specs.Stops.{HasFault};
ghost use Rattle.capsule_bytes.specs.Worked.{worked, worked_octets};

use crate::parts::CapsuleParts;
use crate::stop::CapsuleStop;

/// Two capsules with one spelling are the same.
pub fn a_capsule_has_one_spelling()
    ensures { (one other : CapsuleParts) → IsCapsule one → IsCapsule other → spell_capsule one ≡ spell_capsule other → one ≡ other }
{}

/// The octets of a capsule have no fault, and others have one first fault at most.
pub fn faults_exclude_one_another()
    ensures sound { (bytes : List ℕ) (parts : CapsuleParts) (stop : CapsuleStop) → IsCapsuleOf bytes parts → ¬ HasFault bytes stop }
    ensures fault { (bytes : List ℕ) (one other : CapsuleStop) → HasFault bytes one → HasFault bytes other → one ≡ other }
{}

/// A capsule worked by hand, with a member in each list.
pub fn a_capsule_worked_by_hand()
    ensures capsule { IsCapsule worked }
    ensures octets { spell_capsule worked ≡ worked_octets }
{}
