// Laws of the ways that the turns of fsyncs go.
ghost use Rattle.turn_laws.specs.LawsWays.{NoCallGoes, WaysGoOn};

/// Of no call there is no fsync.
pub fn no_call_goes()
    ensures { NoCallGoes }
{}

/// Each fsync goes its way, over a history with one entry more too.
pub fn ways_go_on()
    ensures { WaysGoOn }
{}
