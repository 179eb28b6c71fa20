//! The laws of rounds. Each function does nothing: its contract is the law, whose proof is checked with it.

ghost use Rattle.std.specs.Prelude.{◌≡◌};
ghost use Rattle.kr_world.specs.Run.{text_of};
ghost use Rattle.kr_calm.specs.Calm.{RunsAreCalm};
ghost use Rattle.kr_calm.specs.CalmRows.{ten_rounds, ten_rounds_text, TenRoundsAreCalm};

/// In every script's run, from a world to which no server joins and whose members all run, so many rounds leave no call
/// open, and every server that runs has applied the whole history.
pub fn runs_are_calm()
    ensures { RunsAreCalm }
{}

/// One server, one client, one create, and as many rounds as are always enough: what is printed, and that the next call
/// is taken.
pub fn one_server_in_ten_rounds()
    ensures { text_of ten_rounds ≡ ten_rounds_text }
{}

/// In that run the world from which the rounds begin meets what the law of rounds takes: it is calm, and no round and no
/// step of one is refused for a full bag.
pub fn ten_rounds_are_calm()
    ensures { TenRoundsAreCalm }
{}
