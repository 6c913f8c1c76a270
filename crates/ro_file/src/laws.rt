// What an opened file says of a content.
ghost use Rattle.ro_file.specs.Contents.{FilesAreMeasured, FileReadsAreSlices, FileMismatchesLie, DescriptorsOpen};

/// Where a content has a file's digest, and no two different inputs share a digest, the opened file is the content's, its reads
/// give the content's bytes, and a piece that a mismatch blames is none of the content's pages. A descriptor opens by its own
/// digest. Its contract is the law; it does nothing.
pub fn files_are_measured()
    ensures file { FilesAreMeasured }
    ensures bytes { FileReadsAreSlices }
    ensures mismatches { FileMismatchesLie }
    ensures opens { DescriptorsOpen }
{}
