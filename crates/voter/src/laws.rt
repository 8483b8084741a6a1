//! What holds of the voter over whole runs, as contracts of functions that do nothing.
ghost use Rattle.voter.specs.Promises.{Alarming, VotingIsExact};

/// Which sensors the alarms call bad, over any number of beats.
pub fn alarm_laws()
    ensures { Alarming }
{}

/// One answer only keeps the promises of `Sensors::middle` and of what is noted of a beat.
pub fn voting_is_exact()
    ensures { VotingIsExact }
{}
