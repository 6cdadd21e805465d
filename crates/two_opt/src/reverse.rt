// A stretch of calls turned round in place.
ghost use Rattle.std.specs.Prelude.{◌≡◌, reverse};

// The last call becomes the first, and so on.
pub fn reverse(part: &mut [usize])
    ensures { part.new ≡ reverse part.old }
{
    part.reverse();
}
