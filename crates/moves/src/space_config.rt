// How wide spaces are, and what they leave of the extra pixels (rule 5).
ghost use Rattle.std.specs.Prelude.{◌≤◌, ◌≡◌};
ghost use Rattle.meaning.specs.SpaceConfig.{spaces_width, spaces_after};
ghost use Rattle.moves.specs.Fine.{FineSpaces};

use meaning::counts::Pixels;
use meaning::cursor::Spaces;

// The width of the next n spaces: a pixel more each as long as extra pixels are left.
pub fn spaces_width(sp: Spaces, n: u32) -> u32
    requires { FineSpaces sp × (n ≤ 65535) }
    ensures { result ≡ spaces_width sp n }
{
    n * sp.width.0 + n.min(sp.extra.0)
}

// What is left of the extra pixels after n spaces.
pub fn spaces_after(sp: Spaces, n: u32) -> Spaces
    ensures { result ≡ spaces_after sp n }
{
    Spaces {
        extra: Pixels(sp.extra.0.saturating_sub(n)),
        ..sp
    }
}
