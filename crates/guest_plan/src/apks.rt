// The fields of an APK device's line.
ghost use Rattle.std.specs.Prelude.{◌≡◌};
ghost use Rattle.guest_plan.specs.declared.plan.PlanLine.TheVariants.{Apk};

use crate::plan::{How, PlanLine};
use text_lines::Name;

/// Four fields, the last of which are how the device is measured.
#[derive(Clone, Copy)]
pub(crate) struct ApkFields<'a> {
    pub disk: &'a [u8],
    pub apk: &'a [u8],
    pub idsig: &'a [u8],
    pub how: &'a [u8],
}

/// A disk and two of its partitions.
#[derive(Drop)]
pub(crate) struct Places {
    pub disk: u32,
    pub apk: Name,
    pub idsig: Name,
}

impl Places {
    /// The line of the device there.
    pub(crate) fn measured(self, how: How) -> PlanLine
        ensures { result ≡ Apk self.disk self.apk self.idsig how }
    {
        let Places { disk, apk, idsig } = self;
        PlanLine::Apk {
            disk,
            apk,
            idsig,
            how,
        }
    }
}
