// Whether a number passes at a threshold, the largest one, up to a given one, that does, and a region whose z is lowered to it.
ghost use Rattle.std.specs.Prelude.{◌≡◌, ◌-◌, ◌≤◌};
ghost use Rattle.bounds.specs.Curves.{largest_up_to};
ghost use Rattle.pvalues.specs.FromP as from;
ghost use Rattle.pvalues.specs.Private.Lowering.{lower_at};

// A region whose z is being lowered: how many of its p-values are left, and its z so far.
#[derive(Clone, Copy)]
pub(crate) struct Lowering {
    pub(crate) left: u16,
    pub(crate) z: u16,
}

impl Lowering {
    // One of its p-values, no less than those before it, is no longer left. That it is 1,000,000 at most is asked where it is used: a
    // type for that would be longer.
    pub(crate) fn lower(&mut self, p: u32, deviation_squared: u32)
        requires p_bound { p ≤ 1000000 }
        requires constant_bound { deviation_squared ≤ 100000000 }
        requires z_bound { self.old.z ≤ 4096 }
        ensures left { self.new.left ≡ self.old.left - 1 }
        ensures z { self.new.z ≡ lower_at deviation_squared p self.old.left self.old.z }
    {
        self.left = self.left.saturating_sub(1);
        self.z = largest_passing(deviation_squared, 1000000 - p, self.left, self.z);
    }
}

// Whether v passes at a threshold with this gap and so many p-values over it. The largest square is that of 4,096,000,000.
fn passes(deviation_squared: u32, gap: u32, over: u16, v: u16) -> bool
    requires { (deviation_squared ≤ 100000000) × (gap ≤ 1000000) × (v ≤ 4096) }
    ensures { result ≡ from.passes deviation_squared gap over v }
{
    let reached = (v as u64) * (gap as u64);
    let counted = 1000000 * (over as u64);
    if reached <= counted {
        return true;
    }
    let excess = reached - counted;
    excess * excess <= (deviation_squared as u64) * (v as u64) * 1000000
}

// The largest z, up to the one given, that passes. 0 passes always, so that a `find` would name a value for a case that cannot be.
fn largest_passing(deviation_squared: u32, gap: u32, over: u16, z: u16) -> u16
    requires { (deviation_squared ≤ 100000000) × (gap ≤ 1000000) × (z ≤ 4096) }
    ensures { result ≡ largest_up_to z (from.passes deviation_squared gap over) }
{
    let mut v = z;
    while !passes(deviation_squared, gap, over, v) {
        v -= 1;
    }
    v
}
