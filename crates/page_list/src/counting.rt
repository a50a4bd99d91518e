// How many pages so many lines take (rule 10).
ghost use Rattle.std.specs.Prelude.{◌≤◌, ◌≡◌};
ghost use Rattle.laws.specs.PageLaws.{page_count};

// Pages of h lines each, the last one filled or not. C passes h as any number, and definitions take it so: of a type that is never 0 each
// clause would say the number in it.
pub fn page_count(lines: usize, h: u32) -> usize
    requires { 1 ≤ h }
    ensures { result ≡ page_count h lines }
{
    lines.div_ceil(h as usize)
}
