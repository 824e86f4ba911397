// Numbers that lie in a range.
ghost use Rattle.std.specs.Prelude.{◌≡◌};
ghost use Rattle.laws.specs.Tests.{within};
ghost use Rattle.model.specs.Numbers.{first_coded, last_coded};
ghost use Rattle.model.specs.Commands.{good_extent};

// The lowest and the highest coded format.
const FIRST_CODED: u32 = 0x1000;

const LAST_CODED: u32 = 0x1005;

// The lowest and the highest width or height.
const LEAST_EXTENT: u32 = 16;

const MOST_EXTENT: u32 = 4096;

// Whether a format is a coded one.
#[tactic(auto, unfolding(laws::specs::Tests::within))]
pub fn coded_good(format: u32) -> bool
    ensures { result ≡ within format first_coded last_coded }
{
    (FIRST_CODED..=LAST_CODED).contains(&format)
}

// Whether a width or a height is from 16 to 4,096, and even.
#[tactic(auto, unfolding(laws::specs::Tests::within))]
pub fn extent_good(v: u32) -> bool
    ensures { result ≡ good_extent v }
{
    (LEAST_EXTENT..=MOST_EXTENT).contains(&v) && v % 2 == 0
}
