//! Laws of the master's format. A law is a function without code: its contract is what is proved.

ghost use Rattle.std.specs.Prelude.{◌≡◌};
ghost use Rattle.rm_outside.specs.Images.{Bytes};
ghost use Rattle.rm_master.specs.declared.fields.Fields.{Fields as the_fields};
ghost use Rattle.rm_master.specs.Slots.{HasFields};

/// An area has one reading.
pub fn an_area_has_one_reading()
    ensures { (area : Bytes) (f g : the_fields) → HasFields area f → HasFields area g → f ≡ g }
{}
