//! When segments leave a link.

ghost use Rattle.std.specs.Prelude.{ℕ, ◌≡◌, ◌≤◌, ◌+◌, ◌↔◌, IsTrue, false};
ghost use Rattle.link_bag.specs.declared.plan.Fate.{Fate};
ghost use Rattle.far_side.specs.declared.link.InLink.{InLink};
ghost use Rattle.far_side.specs.Links.{act_of, act_in, is_gone, older, put_now, last_turn};

/// A segment leaves its link in the last turn of its fate, and in no earlier one. A segment that passes or is lost
/// leaves in the first turn in which it may be delivered, any other as many turns later as its fate says. Until then
/// its age never exceeds that turn.
pub fn segments_leave_by_their_fates()
    ensures leaves { (fate : Fate) (turns : ℕ) → turns ≤ last_turn fate → IsTrue (is_gone (act_of fate turns)) ↔ (turns ≡ last_turn fate) }
    ensures begins { (fate : Fate) (router : ℕ) → (put_now fate router).turns ≤ last_turn fate }
    ensures stays { (x : InLink) → x.turns ≤ last_turn x.fate → is_gone (act_in x) ≡ false → (older x).turns ≤ last_turn x.fate }
{}
