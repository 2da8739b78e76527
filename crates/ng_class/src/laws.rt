//! What holds of the table of classes and of the slots of a group, whatever the code does.
ghost use Rattle.std.specs.Prelude.{◌≡◌};
ghost use Rattle.ng_class.specs.Class.{units_of, UnitsRise};
ghost use Rattle.ng_class.specs.Place.{SlotsAreApart};

/// The sizes of the classes rise, from 1 unit to 8191.
pub fn units_rise()
    ensures first { units_of 0 ≡ 1 }
    ensures last { units_of 47 ≡ 8191 }
    ensures rises { UnitsRise }
{}

/// Distinct slots of one group have no cell in common.
pub fn slots_are_apart()
    ensures { SlotsAreApart }
{}
