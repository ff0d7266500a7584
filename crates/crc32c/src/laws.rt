//! How bytes and their check change together; each function asks for a proof of one law, and does nothing.
ghost use Rattle.crc32c.specs.Distance.{FourApart, RunChanges};

pub fn run_changes()
    ensures { RunChanges }
{}

pub fn four_apart()
    ensures { FourApart }
{}
