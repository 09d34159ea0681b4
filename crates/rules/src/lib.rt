// The rules of the switch as mathematics: its definition, and what holds of every run of it.
#![tactic(auto)]

ghost use Rattle.std.specs.Prelude.{◌≡◌, true};
ghost use Rattle.rules.specs.Edges.{Edges};
ghost use Rattle.rules.specs.Laws.{LawsHold};
ghost use Rattle.rules.specs.Twins.{TwinsAgree};

// The laws over runs, and over two switches: the contract names them, so that the check asks for their proof.
pub fn laws_stand() -> bool
    ensures answer { result ≡ true }
    ensures laws { LawsHold }
    ensures twins { TwinsAgree }
{
    true
}

// The worked examples at the edges of the rules, likewise, and how many there are.
pub fn edges_stand() -> u8
    ensures answer { result ≡ 13 }
    ensures edges { Edges }
{
    13
}
