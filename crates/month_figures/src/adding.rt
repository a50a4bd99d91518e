// The figures of no text, and those of some texts and of others together.
ghost use Rattle.std.specs.Prelude.{◌≡◌};
ghost use Rattle.meaning.specs.Month.{no_figures, together};
ghost use Rattle.month_figures.specs.Rooms.{Room};

use meaning::figures::Figures;

// Those of no text.
pub fn no_figures() -> Figures
    ensures { result ≡ no_figures }
{
    Figures {
        texts: 0,
        lines: 0,
        broken: 0,
        dropped: 0,
        long: 0,
        invalid: 0,
        most: 0,
    }
}

// Those of some texts and of others.
pub fn both(f: Figures, g: Figures) -> Figures
    requires { Room f g }
    ensures { result ≡ together f g }
{
    Figures {
        texts: f.texts + g.texts,
        lines: f.lines + g.lines,
        broken: f.broken + g.broken,
        dropped: f.dropped + g.dropped,
        long: f.long + g.long,
        invalid: f.invalid + g.invalid,
        most: f.most.max(g.most),
    }
}
