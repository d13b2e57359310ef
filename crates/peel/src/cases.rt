// The worked cases of the definitions, asked for by a contract.
ghost use Rattle.std.specs.Prelude.{◌≡◌};
ghost use Rattle.peel.specs.Theorems.{WorkedCases};

// How many worked cases stand.
pub fn worked_cases() -> u8
    ensures cases { WorkedCases }
    ensures count { result ≡ 14 }
{
    14
}
