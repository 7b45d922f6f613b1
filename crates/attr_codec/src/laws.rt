//! What holds of fields of attributes.

ghost use Rattle.std.specs.Prelude.{◌≡◌, ◌↔◌, ℕ, List, Bool, Ok};
ghost use Rattle.bgp_types.specs.declared.attrs.Attrs.{Attrs};
ghost use Rattle.bgp_types.specs.declared.fault.FoundAttrs.{FoundAttrs};
ghost use Rattle.bgp_types.specs.Found.{attrs_in};
ghost use Rattle.bgp_types.specs.OctetLists.{AreOctets};
ghost use Rattle.bgp_types.specs.Reads.{ReadsAttrs};
ghost use Rattle.bgp_types.specs.Spelling.{spell_attrs};
ghost use Rattle.attr_codec.specs.Fields.{FitsField, all_found};

/// A field has no fault if and only if it is a sequence of sound attributes, no two of the same type;
/// then what is found is what they give.
pub fn fields_read_alike()
    ensures { (field : List ℕ) (wide : Bool) (found : FoundAttrs) → AreOctets field → (attrs_in wide field ≡ Ok found) ↔ ReadsAttrs wide field found }
{}

/// The written form of attributes that fit a field reads as them.
pub fn written_attrs_read()
    ensures { (attrs : Attrs) (wide : Bool) → FitsField attrs wide → attrs_in wide (spell_attrs wide attrs) ≡ Ok (all_found attrs) }
{}
