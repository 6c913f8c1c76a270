// What reads and writes of records come to.
ghost use Rattle.instance_image.specs.Promised.{TextsWereSealed};
ghost use Rattle.instance_image.specs.Staying.{SizesAreKept, OthersAreKept, PutsKeepRecords, GetsHearSealed, PutsKeepImages, PutsKeepWritable};

/// Where no sealed form is heard but those of some sealings, a text that is got is one of theirs, with
/// that UUID. Its contract is the law; it does nothing.
pub fn texts_were_sealed()
    ensures { TextsWereSealed }
{}

/// A put changes the kept size of its own partition alone. A host that held the records of an image,
/// each of some sealings, holds them after it, the new one among them; and where it held an image, it
/// holds one of the partitions that the put kept, which may be written as before. Its contract is the
/// law; it does nothing.
pub fn records_stay()
    ensures size { SizesAreKept }
    ensures sizes { OthersAreKept }
    ensures all { PutsKeepRecords }
    ensures image { PutsKeepImages }
    ensures writable { PutsKeepWritable }
{}

/// A get over a host that holds the records of an image, each of some sealings, hears no sealed form
/// but theirs. Its contract is the law; it does nothing.
pub fn gets_hear_sealed()
    ensures { GetsHearSealed }
{}
