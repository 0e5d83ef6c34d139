// How many replicas are enough.
ghost use Rattle.std.specs.Prelude.{◌≡◌, ◌+◌, ◌-◌, ◌*◌};

use replica::Set;

// So many that one of them is honest.
pub fn some_honest(set: &Set) -> u32
    ensures { result ≡ set.now.f + 1 }
{
    u32::from(set.f) + 1
}

// So many that most of them are honest.
pub fn most(set: &Set) -> u32
    ensures { result ≡ 2 * set.now.f + 1 }
{
    2 * u32::from(set.f) + 1
}

// As many as the honest ones can make.
pub fn all_honest(set: &Set) -> u32
    ensures { result ≡ set.now.n - set.now.f }
{
    u32::from(set.n.saturating_sub(set.f))
}
