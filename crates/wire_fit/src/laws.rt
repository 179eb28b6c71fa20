//! Laws of what is sent. Each function does nothing: its contract is the law, whose proof is checked with it.

ghost use Rattle.wire_fit.specs.Runs.{RunsKeepPackets};
ghost use Rattle.wire_fit.specs.Spoken.{WorldsAreSpoken};

/// Every packet in the bag of the first world has a spelling, and a step keeps that so, where each client has begun fewer
/// than 2^63 - 1 queries.
pub fn worlds_are_spoken()
    ensures { WorldsAreSpoken }
{}

/// Each packet that is in the bag after a step of a script's run is read again of its spelling, where the script has fewer
/// than 2^63 lines.
pub fn runs_keep_packets()
    ensures { RunsKeepPackets }
{}
