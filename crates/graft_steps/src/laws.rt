//! Which refusal a graft gets.

ghost use Rattle.std.specs.Prelude.{◌≡◌, ◌≢◌, ◌↔◌, ◌⊎◌, ◌<◌, ◌≤◌, ℕ, List, Option, Some, None};
ghost use Rattle.graft_edge.specs.declared.ids.RouterId.{RouterId};
ghost use Rattle.bgp_types.specs.declared.message.SessionState.{SessionState};
ghost use Rattle.bgp_types.specs.declared.message.SessionState.TheVariants.{Established};
ghost use Rattle.graft_steps.specs.declared.refusal.Refusal.TheVariants.{SameRouter, NotEstablished, HoldTooShort, RouterFull, PolicyMissing};
ghost use Rattle.graft_steps.specs.Refusals.{freeze_refusal, admit_refusal};

/// A source has three refusals. It gives each of them if and only if its condition holds and that of
/// none before it does. It gives none if and only if the target is another router, the session is
/// established, and it has no hold timer or one of at least 30 seconds.
pub fn source_refusals()
    ensures same_router { (source target : RouterId) (state : SessionState) (hold : ℕ)
        → (freeze_refusal source target state hold ≡ Some SameRouter) ↔ (target ≡ source) }
    ensures not_established { (source target : RouterId) (state named : SessionState) (hold : ℕ)
        → (freeze_refusal source target state hold ≡ Some (NotEstablished named)) ↔ ((target ≢ source) × (state ≢ Established) × (named ≡ state)) }
    ensures hold_too_short { (source target : RouterId) (state : SessionState) (hold named : ℕ)
        → (freeze_refusal source target state hold ≡ Some (HoldTooShort named))
        ↔ ((target ≢ source) × (state ≡ Established) × (0 < hold) × (hold < 30) × (named ≡ hold)) }
    ensures none { (source target : RouterId) (state : SessionState) (hold : ℕ) → (freeze_refusal source target state hold ≡ None)
        ↔ ((target ≢ source) × (state ≡ Established) × ((hold ≡ 0) ⊎ (30 ≤ hold))) }
{}

/// A target has two refusals: its places are taken, or else it doesn't have one of the policies. It
/// gives none if and only if it has a place left and no policy is missing.
pub fn target_refusals()
    ensures full { (held room named : ℕ) (missing : Option (List ℕ))
        → (admit_refusal held room missing ≡ Some (RouterFull named)) ↔ ((room ≤ held) × (named ≡ room)) }
    ensures missing { (held room : ℕ) (missing : Option (List ℕ)) (name : List ℕ)
        → (admit_refusal held room missing ≡ Some (PolicyMissing name)) ↔ ((held < room) × (missing ≡ Some name)) }
    ensures none { (held room : ℕ) (missing : Option (List ℕ)) → (admit_refusal held room missing ≡ None) ↔ ((held < room) × (missing ≡ None)) }
{}
