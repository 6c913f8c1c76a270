// What a plan in the grammar says of its lines, and what its lines leave as it is.
ghost use Rattle.guest_boot.specs.Booting.{PlansAreServed, PlansAreNumbered, PlansAreSalted, InstanceStands, InstanceIsAlone, ReadersWriteNothing, ReadersOnlyRead};

/// The lines of a plan that was read are in the grammar, and each has a number. Its contract is the law; it does nothing.
pub fn plans_are_served()
    ensures served { PlansAreServed }
    ensures numbered { PlansAreNumbered }
{}

/// The instance line of a plan that was read: it is the only one, and the plan has a salt. Its contract is the law; it does nothing.
pub fn instances_are_alone()
    ensures stands { InstanceStands }
    ensures alone { InstanceIsAlone }
    ensures salted { PlansAreSalted }
{}

/// Lines for which boot only reads, all but those whose measure is in a record and those of writable files: they leave the image, the
/// entropy and the writes as they are, and each call for them asks for bytes or a number. Its contract is the law; it does nothing.
pub fn readers_change_nothing()
    ensures stays { ReadersWriteNothing }
    ensures reads { ReadersOnlyRead }
{}
