// What a mismatch says.
ghost use Rattle.verity_path.specs.Lies.{MismatchesLie};

/// Where no two different inputs share a digest, the piece at which a mismatch was found is not the content's page.
/// Its contract is the law; it does nothing.
pub fn mismatches_lie()
    ensures { MismatchesLie }
{}
