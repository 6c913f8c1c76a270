// Laws of what is answered.
ghost use Rattle.fuse_server.specs.Serving.{FilesStay, ServedStay, NumbersStay, AllIsServed};
ghost use Rattle.fuse_server.specs.Ties.{TiedAtFirst, TiesStay};

/// Over names whose nodes are directories that the host doesn't have and files that are there, ENOSYS is answered to
/// unknown opcodes alone; and whatever is answered, the names stay such. Its contract is the law; it does nothing.
pub fn names_stay_served()
    ensures stay { ServedStay }
    ensures all { AllIsServed }
{}

/// Where each writable file stands at the number that it has at the host, it is so whatever is answered. Its contract is the
/// law; it does nothing.
pub fn numbers_stay()
    ensures { NumbersStay }
{}

/// No message changes the read-only files. Its contract is the law; it does nothing.
pub fn files_stay()
    ensures { FilesStay }
{}

/// Over names whose nodes count no open handle, a new server's handles and nodes are tied, and stay so whatever is answered: the
/// numbers of open handles rise, none above the last one given, and each node counts as many as it has, so that the node of an
/// open handle lives. Its contract is the law; it does nothing.
pub fn handles_stay_tied()
    ensures first { TiedAtFirst }
    ensures stay { TiesStay }
{}
