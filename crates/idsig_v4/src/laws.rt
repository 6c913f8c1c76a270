// What the definitions say of each file.
ghost use Rattle.idsig_v4.specs.Reading.{IdsigsAreRead};

/// Each file that is an idsig is read as its head. Its contract is the law; it does nothing.
pub fn idsigs_are_read()
    ensures { IdsigsAreRead }
{}
