//! What holds of packets and their bytes; each function asks for a proof of one law, and does nothing.
ghost use Rattle.wire.specs.Laws.{CutIsRefused, FewBitsAreRefused, LongerIsRefused, OneWay, OpenSeam, OtherCheckIsRefused, ReadIsWritten, RunIsRefused, ShortRunIsRefused, WrittenIsRead};

pub fn written_is_read()
    ensures { WrittenIsRead }
{}

pub fn read_is_written()
    ensures { ReadIsWritten }
{}

pub fn one_way()
    ensures { OneWay }
{}

pub fn cut_is_refused()
    ensures { CutIsRefused }
{}

pub fn longer_is_refused()
    ensures { LongerIsRefused }
{}

pub fn run_is_refused()
    ensures { RunIsRefused }
{}

pub fn other_check_is_refused()
    ensures { OtherCheckIsRefused }
{}

pub fn few_bits_are_refused()
    ensures { FewBitsAreRefused }
{}

pub fn short_run_is_refused()
    ensures { ShortRunIsRefused }
{}

pub fn open_seam()
    ensures { OpenSeam }
{}
